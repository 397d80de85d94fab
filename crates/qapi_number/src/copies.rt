ghost use Rattle.std.specs.Prelude.{◌≡◌, map, IfOk};
ghost use Rattle.qapi_number.specs.Kinds.{value_defs};

use qapi_define::EnumValue;
use qapi_types::{Names, ValueDef, ValueList};
use qm_base::{GrowingList, NoMemory, Text};
use std::alloc::Global;

/// Equal names.
pub fn copy_names(alloc: Global, names: &[Text]) -> Result<Names, NoMemory>
    ensures { IfOk result (λ copy. copy ≡ names.now) }
{
    let mut copy = GrowingList::new(alloc);
    for name in names {
        copy.push(name.copy(alloc)?)?;
    }
    Ok(copy)
}

/// The values of an enum.
pub fn copy_values(alloc: Global, values: &[EnumValue]) -> Result<ValueList, NoMemory>
    ensures { IfOk result (λ copy. copy ≡ value_defs values.now) }
{
    let mut copy = GrowingList::new(alloc);
    for value in values {
        let name = value.name.copy(alloc)?;
        let features = copy_names(alloc, value.features.as_slice())?;
        copy.push(ValueDef { name, features })?;
    }
    Ok(copy)
}
