ghost use Rattle.std.specs.Prelude.{◌≡◌, IfOk};

use crate::value::{Json, Member};
use qm_base::NoMemory;
use sqlite_items::Items;
use std::alloc::Global;

impl Json {
    /// An equal value.
    pub fn copy(&self, alloc: Global) -> Result<Json, NoMemory>
        ensures { IfOk result (λ copied. copied ≡ self.now) }
    {
        copy_value(alloc, self)
    }
}

#[cycle(copy)]
fn copy_value(alloc: Global, value: &Json) -> Result<Json, NoMemory>
    ensures { IfOk result (λ copied. copied ≡ value.now) }
{
    match value {
        Json::Null => Ok(Json::Null),
        Json::Bool(b) => Ok(Json::Bool(*b)),
        Json::Int(n) => Ok(Json::Int(*n)),
        Json::Num(text) => Ok(Json::Num(text.copy(alloc)?)),
        Json::Str(bytes) => Ok(Json::Str(bytes.copy(alloc)?)),
        Json::Arr(items) => Ok(Json::Arr(copy_items(alloc, items.as_slice())?)),
        Json::Obj(members) => Ok(Json::Obj(copy_members(alloc, members.as_slice())?)),
    }
}

#[cycle(copy)]
fn copy_items(alloc: Global, items: &[Json]) -> Result<Items<Json>, NoMemory>
    ensures { IfOk result (λ copied. copied ≡ items.now) }
{
    let mut copied = Items::new(alloc);
    for item in items {
        copied.push(copy_value(alloc, item)?)?;
    }
    Ok(copied)
}

#[cycle(copy)]
fn copy_member(alloc: Global, member: &Member) -> Result<Member, NoMemory>
    ensures { IfOk result (λ copied. copied ≡ member.now) }
{
    let name = member.name.copy(alloc)?;
    let value = copy_value(alloc, &member.value)?;
    Ok(Member { name, value })
}

#[cycle(copy)]
fn copy_members(alloc: Global, members: &[Member]) -> Result<Items<Member>, NoMemory>
    ensures { IfOk result (λ copied. copied ≡ members.now) }
{
    let mut copied = Items::new(alloc);
    for member in members {
        copied.push(copy_member(alloc, member)?)?;
    }
    Ok(copied)
}
