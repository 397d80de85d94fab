ghost use Rattle.std.specs.Prelude.{◌≡◌, ◌<◌, length, option_copied};
ghost use Rattle.qapi_types.specs.Types.{kind_of, is_object, is_enum, is_array, json_kind_of};
ghost use Rattle.qapi_types.specs.Types.{values_of, tag_member as member_of_tag, tag_values as values_of_tag};

use crate::kind::{JsonKind, Kind, MemberDef, ValueDef};

/// The type of the number.
pub fn kind_at(kinds: &[Kind], number: usize) -> &Kind
    requires { number < length kinds.now }
    ensures { result.now ≡ kind_of kinds.now number }
{
    &kinds[number]
}

/// Whether the number is that of an object type.
pub fn is_object_at(kinds: &[Kind], id: u32) -> bool
    ensures { result ≡ is_object (kind_of kinds.now id) }
{
    match kinds.get(id as usize) {
        Some(Kind::Object(_)) => true,
        _ => false,
    }
}

/// Whether the number is that of an enum.
pub fn is_enum_at(kinds: &[Kind], id: u32) -> bool
    ensures { result ≡ is_enum (kind_of kinds.now id) }
{
    match kinds.get(id as usize) {
        Some(Kind::Enum(_, _)) => true,
        _ => false,
    }
}

/// Whether the number is that of an array type.
pub fn is_array_at(kinds: &[Kind], id: u32) -> bool
    ensures { result ≡ is_array (kind_of kinds.now id) }
{
    match kinds.get(id as usize) {
        Some(Kind::Array(_)) => true,
        _ => false,
    }
}

/// The kind of JSON values that are of the type of the number.
pub fn json_kind_at(kinds: &[Kind], id: u32) -> Option<JsonKind>
    ensures { result ≡ json_kind_of (kind_of kinds.now id) }
{
    match kinds.get(id as usize) {
        Some(kind) => kind.json_kind(),
        None => Some(JsonKind::Null),
    }
}

/// The values of the enum of the number; none of any other type.
pub fn values_at(kinds: &[Kind], id: u32) -> &[ValueDef]
    ensures { result.now ≡ values_of (kind_of kinds.now id) }
{
    match kinds.get(id as usize) {
        Some(kind) => kind.values(),
        None => &[],
    }
}

/// The tag of a union.
pub fn tag_member(kind: &Kind) -> Option<&MemberDef>
    ensures { option_copied result ≡ member_of_tag kind.now }
{
    match kind.tag() {
        Some(position) => kind.members().get(position as usize),
        None => None,
    }
}

/// The values of a union's tag; none of any other type.
pub fn tag_values<'a>(kinds: &'a [Kind], kind: &Kind) -> &'a [ValueDef]
    ensures { result.now ≡ values_of_tag kinds.now kind.now }
{
    match tag_member(kind) {
        Some(member) => values_at(kinds, member.type_id),
        None => &[],
    }
}
