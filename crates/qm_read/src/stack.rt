use crate::named_members::NamedMembers;
use qm_base::Text;
use qm_json::Json;
use sqlite_items::Items;

/// What is open: nothing yet, an array by its items, an object by its members and the name whose
/// value comes, or nothing any more, since the value is whole.
#[derive(Drop)]
pub enum Open {
    Top,
    Arr(Items<Json>),
    Obj(NamedMembers, Text),
    Whole(Json),
}

/// What may stand next.
#[derive(Clone, Copy, PartialEq, Eq)]
pub enum Expect {
    Value,
    ValueOrEnd,
    Name,
    NameOrEnd,
    Colon,
    CommaOrEnd,
    End,
}
