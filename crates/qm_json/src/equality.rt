ghost use Rattle.std.specs.Prelude.{◌≡◌, IsTrue, ◌↔◌};

use crate::value::{Json, Member};

impl Json {
    /// Whether two values are equal, the members of objects in the same order.
    pub fn same(&self, other: &Json) -> bool
        ensures { IsTrue result ↔ (self.now ≡ other.now) }
    {
        same_value(self, other)
    }
}

#[cycle(same)]
fn same_value(value: &Json, other: &Json) -> bool
    ensures { IsTrue result ↔ (value.now ≡ other.now) }
{
    match (value, other) {
        (Json::Null, Json::Null) => true,
        (Json::Bool(a), Json::Bool(b)) => *a == *b,
        (Json::Int(a), Json::Int(b)) => *a == *b,
        (Json::Num(a), Json::Num(b)) => a.same(b),
        (Json::Str(a), Json::Str(b)) => a.same(b),
        (Json::Arr(a), Json::Arr(b)) => same_items(a.as_slice(), b.as_slice()),
        (Json::Obj(a), Json::Obj(b)) => same_members(a.as_slice(), b.as_slice()),
        _ => false,
    }
}

#[cycle(same)]
fn same_items(items: &[Json], others: &[Json]) -> bool
    ensures { IsTrue result ↔ (items.now ≡ others.now) }
{
    if items.len() != others.len() {
        return false;
    }
    for (i, item) in items.iter().enumerate() {
        if !same_value(item, &others[i]) {
            return false;
        }
    }
    true
}

#[cycle(same)]
fn same_member(member: &Member, other: &Member) -> bool
    ensures { IsTrue result ↔ (member.now ≡ other.now) }
{
    member.name.same(&other.name) && same_value(&member.value, &other.value)
}

#[cycle(same)]
fn same_members(members: &[Member], others: &[Member]) -> bool
    ensures { IsTrue result ↔ (members.now ≡ others.now) }
{
    if members.len() != others.len() {
        return false;
    }
    for (i, member) in members.iter().enumerate() {
        if !same_member(member, &others[i]) {
            return false;
        }
    }
    true
}
