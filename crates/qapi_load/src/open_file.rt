ghost use Rattle.std.specs.Prelude.{◌≡◌, ◌≢◌, ◌<◌, [], length, List, Result, None, IfOk, IfErr, IfSome, Err};
ghost use Rattle.std.specs.Vec.Iter.{into_iter_items};
ghost use Rattle.qapi_load.specs.declared.fault.LoadFault.{LoadFault};
ghost use Rattle.qapi_load.specs.declared.reading.Place.{Place};
ghost use Rattle.qapi_load.specs.declared.reading.Reading.{Reading};
ghost use Rattle.qapi_load.specs.Loading.{after_expression, after_expressions, after_include, full_name, included_by, is_pragma as is_pragma_of, memory_fault, need_of};
ghost use Rattle.qapi_load.specs.Steps.{HasRoom, Read, SameFiles, goes_on, left_in, taken};

use crate::fault::{LoadFault, LoadRule, MOST_FILES, owned, refused};
use crate::includes::{full, included, is_pragma};
use crate::reading::{Need, Place, Reading};
use qapi_tree::Expr;
use qm_base::{NoMemory, Text};
use std::alloc::Global;
use std::vec::IntoIter;

/// A file that is being read.
#[derive(Drop)]
pub struct OpenFile {
    /// Its name.
    pub name: Text,
    /// Its expressions that are still to be read.
    pub rest: IntoIter<Expr>,
}

/// An include whose file is to be read.
#[derive(Drop)]
pub struct Wanted {
    /// Where it stands.
    pub place: Place,
    /// The full name of the file.
    pub name: Text,
}

/// What an expression comes to.
enum Turn {
    /// It was read.
    Over,
    /// It includes a file that is to be read.
    Stop(Wanted),
}

/// Looks at an include of a file.
fn include(
    alloc: Global,
    reading: &Reading,
    file: &[u8],
    line: u32,
    name: &[u8],
) -> Result<Turn, LoadFault>
    ensures ok { IfOk result (λ turn. (read : Read) →
        after_include read reading.now (record { file = file.now; line = line }) (full_name file.now name.now)
        (need_of reading.now (full_name file.now name.now)) ≡ taken read turn reading.now) }
    ensures room { IfOk result (λ turn. HasRoom turn reading.now) }
    ensures err { IfErr result (λ fault. fault ≢ memory_fault → (read : Read) →
        after_include read reading.now (record { file = file.now; line = line }) (full_name file.now name.now)
        (need_of reading.now (full_name file.now name.now)) ≡ Err fault) }
    ensures cause { IfErr result (λ fault. fault.rule ≢ LoadRule.ReadFault) }
{
    let name = owned(alloc, full(alloc, file, name))?;
    let file = owned(alloc, Text::of(alloc, file))?;
    let place = Place { file, line };
    match reading.need(name.as_slice()) {
        Need::Nothing => Ok(Turn::Over),
        Need::Cycle => Err(refused(LoadRule::IncludeCycle, place, name)),
        Need::TooMany => Err(refused(LoadRule::TooManyFiles, place, name)),
        Need::Wanted => Ok(Turn::Stop(Wanted { place, name })),
    }
}

/// Reads an expression of a file.
fn read_one(
    alloc: Global,
    reading: &mut Reading,
    file: &[u8],
    expr: Expr,
) -> Result<Turn, LoadFault>
    ensures ok { IfOk result (λ turn. (read : Read) →
        after_expression read file.now reading.old expr (included_by expr) (is_pragma_of expr) ≡ taken read turn reading.new) }
    ensures room { IfOk result (λ turn. HasRoom turn reading.new) }
    ensures files { IfOk result (λ _. SameFiles reading.old reading.new) }
    ensures err { IfErr result (λ fault. fault ≢ memory_fault → (read : Read) →
        after_expression read file.now reading.old expr (included_by expr) (is_pragma_of expr) ≡ Err fault) }
    ensures cause { IfErr result (λ fault. fault.rule ≢ LoadRule.ReadFault) }
{
    if let Some(name) = included(&expr) {
        return include(alloc, reading, file, expr.line, name.as_slice());
    }
    if !is_pragma(&expr) {
        owned(alloc, reading.keep(alloc, file, expr))?;
    }
    Ok(Turn::Over)
}

impl OpenFile {
    /// Reads its expressions up to the next include whose file is to be read; None at its end.
    pub fn read_on(
        &mut self,
        alloc: Global,
        reading: &mut Reading,
    ) -> Result<Option<Wanted>, LoadFault>
        ensures ok { IfOk result (λ wanted. (read : Read) →
            after_expressions read self.old.name reading.old (left_in self.old) ≡ goes_on read wanted self.new reading.new) }
        ensures room { IfOk result (λ wanted. IfSome wanted (λ w. HasRoom (Turn.Stop w) reading.new)) }
        ensures err { IfErr result (λ fault. fault ≢ memory_fault → (read : Read) →
            after_expressions read self.old.name reading.old (left_in self.old) ≡ Err fault) }
        ensures cause { IfErr result (λ fault. fault.rule ≢ LoadRule.ReadFault) }
        ensures files { IfOk result (λ _. SameFiles reading.old reading.new) }
        ensures end { IfOk result (λ wanted. wanted ≡ None → left_in self.new ≡ []) }
        ensures name { self.new.name ≡ self.old.name }
    {
        while let Some(expr) = self.rest.next() {
            match read_one(alloc, reading, self.name.as_slice(), expr)? {
                Turn::Over => {}
                Turn::Stop(wanted) => return Ok(Some(wanted)),
            }
        }
        Ok(None)
    }
}
