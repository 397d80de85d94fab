ghost use Rattle.std.specs.Prelude.{◌≡◌, IfOk};
ghost use Rattle.qapi_number.specs.Numbering.{number_of_implicit, type_number as number_of_type};
ghost use Rattle.qapi_number.specs.TypeNames.{number_of_name};
ghost use Rattle.qapi_number.specs.declared.implicit.ImplicitType.TheVariants as one;

use crate::counting::sum;
use crate::implicit::{ImplicitIndex, ImplicitType};
use crate::types::TypeTable;
use qapi_define::TypeName;
use qm_base::NoMemory;

/// The numbers of types: those with names, and after them those without.
#[derive(Drop)]
pub struct Numbering<'a> {
    /// The definitions of types.
    pub types: TypeTable<'a>,
    /// The types without names.
    pub implicit: ImplicitIndex,
}

impl<'a> Numbering<'a> {
    /// The number of a type without a name; 0 where it is not there.
    pub fn implicit_number(&self, one: ImplicitType) -> Result<u32, NoMemory>
        ensures { IfOk result (λ n. n ≡ number_of_implicit self.now one) }
    {
        match self.implicit.place(one) {
            Some(place) => sum(self.types.named(), place),
            None => Ok(0),
        }
    }

    /// The number of arrays of the type of the name; 0 where it is not there.
    fn array_number(&self, element: &[u8]) -> Result<u32, NoMemory>
        ensures { IfOk result (λ n. n ≡ number_of_implicit self.now (one.Array (number_of_name self.now.types element.now))) }
    {
        let element = self.types.number(element)?;
        let number = self.implicit_number(ImplicitType::Array(element))?;
        Ok(number)
    }

    /// The number of the type that is referred to; 0 where there is none.
    pub fn type_number(&self, of: &TypeName) -> Result<u32, NoMemory>
        ensures { IfOk result (λ n. n ≡ number_of_type self.now of.now) }
    {
        if of.is_array {
            let arrays = self.array_number(of.name.as_slice())?;
            return Ok(arrays);
        }
        let number = self.types.number(of.name.as_slice())?;
        Ok(number)
    }
}
