//! Numbers of types in the order in which they are first referred to.
ghost use Rattle.std.specs.Prelude.{◌≡◌, ◌<◌, [], length, IfOk, OnOk, replicate, false, map};
ghost use Rattle.std.specs.List.{All, slice_index_or};
ghost use Rattle.qapi_types.specs.Chains.{has, marked};
ghost use Rattle.qapi_mask.specs.Orders.{with_new, with_all};
ghost use Rattle.qapi_mask.specs.Tables.{IsMarked};

use qm_base::NoMemory;
use std::alloc::Global;

/// Numbers, each once, and marks of those that are there.
#[derive(Drop)]
pub struct Listing {
    /// The numbers in the order in which they were added.
    pub found: Vec<u32>,
    /// A mark for each number that there can be.
    pub marks: Vec<bool>,
}

/// What stands in a table of numbers.
pub fn entry(table: &[u32], number: u32) -> u32
    requires { number < length table.now }
    ensures { result ≡ slice_index_or table.now number 0 }
{
    table[number as usize]
}

fn is_marked(marks: &[bool], number: u32) -> bool
    requires { number < length marks.now }
    ensures { result ≡ marked marks.now number }
{
    marks[number as usize]
}

impl Listing {
    /// No numbers, of which there can be so many.
    pub fn new(alloc: Global, count: usize) -> Result<Listing, NoMemory>
        ensures none { IfOk result (λ listing. listing.found.items ≡ []) }
        ensures marks { IfOk result (λ listing. IsMarked count listing.found.items listing.marks.items) }
    {
        let marks = vec![in alloc; false; count]?;
        Ok(Listing {
            found: Vec::new(alloc),
            marks,
        })
    }

    /// Adds a number, unless it is there.
    pub fn add(&mut self, number: u32) -> Result<(), NoMemory>
        requires within { number < length self.old.marks.items }
        requires marks { IsMarked (length self.old.marks.items) self.old.found.items self.old.marks.items }
        ensures found { OnOk result (self.new.found.items ≡ with_new self.old.found.items number) }
        ensures marks { OnOk result (IsMarked (length self.old.marks.items) self.new.found.items self.new.marks.items) }
    {
        if !self.marks[number as usize] {
            self.found.push(number)?;
            self.marks[number as usize] = true;
        }
        Ok(())
    }

    /// Whether the number is there.
    pub fn has(&self, number: u32) -> bool
        requires within { number < length self.now.marks.items }
        requires marks { IsMarked (length self.now.marks.items) self.now.found.items self.now.marks.items }
        ensures { result ≡ has number self.now.found.items }
    {
        is_marked(self.marks.as_slice(), number)
    }

    /// Adds, for each of some numbers, what stands for it in the table.
    pub fn add_all(&mut self, table: &[u32], numbers: &[u32]) -> Result<(), NoMemory>
        requires within { All (λ x. x < length table.now) numbers.now }
        requires table { All (λ x. x < length self.old.marks.items) table.now }
        requires marks { IsMarked (length self.old.marks.items) self.old.found.items self.old.marks.items }
        ensures found { OnOk result (self.new.found.items ≡ with_all self.old.found.items (map (λ x. slice_index_or table.now x 0) numbers.now)) }
        ensures marks { OnOk result (IsMarked (length self.old.marks.items) self.new.found.items self.new.marks.items) }
    {
        for number in numbers {
            self.add(entry(table, *number))?;
        }
        Ok(())
    }
}
