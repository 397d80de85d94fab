ghost use Rattle.std.specs.Prelude.{◌≡◌, ◌++◌, [], OnOk};
ghost use Rattle.std.specs.List.{cons_option};

use qm_base::{GrowingList, NoMemory};

/// Appends an item where there is one.
pub fn push_some<T: Drop>(list: &mut GrowingList<T>, item: Option<T>) -> Result<(), NoMemory>
    ensures { OnOk result (list.new ≡ list.old ++ cons_option item []) }
{
    match item {
        Some(item) => list.push(item),
        None => Ok(()),
    }
}
