//! Names of types in introspection.
ghost use Rattle.std.specs.Prelude.{◌≡◌, ◌<◌, ◌++◌, codes, length, IfOk};
ghost use Rattle.std.specs.Fmt.{decimal as decimal_of};
ghost use Rattle.qapi_types.specs.Goodness.{IsGood};
ghost use Rattle.qapi_mask.specs.Naming.{is_listed, listed_of, mask_of, own_name_of};
ghost use Rattle.qapi_types.specs.Prelude.{HasPrelude};

use crate::listing::entry;
use crate::naming::{Naming, listed, numbered, numbers};
use crate::standing::{bases, builtin, element, shown};
use itoa::Buffer;
use qapi_types::lookups::kind_at;
use qapi_types::{Parts, Schema};
use qm_base::{NoMemory, Text};
use std::alloc::Global;

fn decimal(alloc: Global, number: u32) -> Result<Text, NoMemory>
    ensures { IfOk result (λ text. text ≡ decimal_of number) }
{
    let mut digits = Buffer::new();
    Text::of(alloc, digits.format(number).as_bytes())
}

impl<'a> Naming<'a> {
    /// The listed types of a schema, and their names.
    pub fn of(alloc: Global, schema: &'a Schema) -> Result<Naming<'a>, NoMemory>
        requires { HasPrelude schema.now }
        ensures { IfOk result (λ naming. naming ≡ schema.now) }
    {
        let parts = schema.parts();
        let kinds = parts.kinds.as_slice();
        let bases = bases(alloc, kinds)?;
        let shown = shown(alloc, kinds, bases.as_slice())?;
        let listed = listed(alloc, parts, shown.as_slice())?;
        let numbered = numbered(alloc, kinds, bases.as_slice(), listed.found.as_slice())?;
        let numbers = numbers(alloc, numbered.found.as_slice(), kinds.len())?;
        Ok(Naming {
            schema,
            shown,
            listed,
            numbers,
        })
    }

    /// The schema's parts.
    pub fn parts(&self) -> &'a Parts
        ensures value { result.now ≡ self.now }
        ensures good { IsGood self.now }
        ensures begun { HasPrelude self.now }
    {
        self.schema.parts()
    }

    /// The numbers of the types that are listed, in their order.
    pub fn listed(&self) -> &[u32]
        ensures { result.now ≡ listed_of self.now }
    {
        self.listed.found.as_slice()
    }

    /// Whether an entry stands for the type.
    pub fn is_listed(&self, number: u32) -> bool
        requires { number < length self.now.kinds }
        ensures { result ≡ is_listed self.now number }
    {
        self.listed.has(entry(self.shown.as_slice(), number))
    }

    /// The name of a type that is no array.
    fn own_name(&self, alloc: Global, number: u32) -> Result<Text, NoMemory>
        requires { number < length self.now.kinds }
        ensures { IfOk result (λ name. name ≡ own_name_of self.now number) }
    {
        let kinds = self.parts().kinds.as_slice();
        match builtin(kind_at(kinds, number as usize)) {
            Some(name) => Text::of(alloc, name),
            None => decimal(alloc, entry(self.numbers.as_slice(), number)),
        }
    }

    fn array_name(&self, alloc: Global, element: u32) -> Result<Text, NoMemory>
        requires { element < length self.now.kinds }
        ensures { IfOk result (λ name. name ≡ codes "[" ++ (own_name_of self.now element ++ codes "]")) }
    {
        let own = self.own_name(alloc, element)?;
        let mut name = Text::of(alloc, b"[")?;
        name.extend(own.as_slice())?;
        name.push(b']')?;
        Ok(name)
    }

    /// The name of a type.
    pub fn name(&self, alloc: Global, number: u32) -> Result<Text, NoMemory>
        requires { number < length self.now.kinds }
        ensures { IfOk result (λ name. name ≡ mask_of self.now number) }
    {
        let kinds = self.parts().kinds.as_slice();
        match element(kind_at(kinds, number as usize)) {
            Some(element) => self.array_name(alloc, element),
            None => self.own_name(alloc, number),
        }
    }
}
