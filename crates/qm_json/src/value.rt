use qm_base::Text;
use sqlite_items::Items;

/// A JSON value (RFC 8259, section 3).
#[cycle(json)]
#[derive(Debug, Drop)]
pub enum Json {
    /// The literal `null`.
    Null,
    /// The literals `true` and `false`.
    Bool(bool),
    /// A whole number from -2^63 to 2^64-1.
    Int(i128),
    /// Any other number, as the text of its literal.
    Num(Text),
    /// A string, as UTF-8.
    Str(Text),
    /// An array.
    Arr(Items<Json>),
    /// An object, its members in the order of the text.
    Obj(Items<Member>),
}

/// A member of an object: a name, as UTF-8, and its value (RFC 8259, section 4).
#[cycle(json)]
#[derive(Debug, Drop)]
pub struct Member {
    /// The name.
    pub name: Text,
    /// The value.
    pub value: Json,
}
