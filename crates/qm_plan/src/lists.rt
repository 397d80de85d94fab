ghost use Rattle.std.specs.Prelude.{◌≡◌, ◌++◌, [], OnOk};
ghost use Rattle.std.specs.List.{cons_option};

use qm_base::{GrowingList, NoMemory};
use sqlite_items::Items;

/// Appends an item where there is one.
pub(crate) fn push_some<T: Drop>(list: &mut Items<T>, item: Option<T>) -> Result<(), NoMemory>
    ensures { OnOk result (list.new ≡ list.old ++ cons_option item []) }
{
    if let Some(item) = item {
        list.push(item)?;
    }
    Ok(())
}

/// The same for a list that grows.
pub(crate) fn note_some<T: Drop>(list: &mut GrowingList<T>, item: Option<T>) -> Result<(), NoMemory>
    ensures { OnOk result (list.new ≡ list.old ++ cons_option item []) }
{
    match item {
        Some(item) => list.push(item),
        None => Ok(()),
    }
}
