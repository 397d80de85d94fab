ghost use Rattle.std.specs.Prelude.{◌≡◌, [], ◌++◌, codes, slice_get, option_copied, IfOk, OnOk};
ghost use Rattle.std.specs.Fmt.{decimal};
ghost use Rattle.std.specs.Option.{option_map_or};
ghost use Rattle.qapi_types.specs.declared.kind.MemberDef.{MemberDef as TypeMember};
ghost use Rattle.qapi_types.specs.Types.{kind_of, members_of};
ghost use Rattle.qm_json.specs.declared.value.Member.{Member as GivenMember};
ghost use Rattle.qm_admit.specs.Paths.{member_at, item_at, value_past, step_text, printed_path};

use crate::path::{PathList, PathStep};
use itoa::Buffer;
use qapi_types::{Kind, MemberDef, Schema};
use qm_base::{NoMemory, Text};
use qm_json::{Json, Member};
use std::alloc::Global;

/// The member of an object at the position.
fn member_at(value: Option<&Json>, position: u64) -> Option<&Member>
    ensures { option_copied result ≡ member_at (option_copied value.entry) position }
{
    match value? {
        Json::Obj(members) => members.get(position as usize),
        _ => None,
    }
}

/// The element of an array at the position.
fn item_at(value: Option<&Json>, position: u64) -> Option<&Json>
    ensures { option_copied result ≡ item_at (option_copied value.entry) position }
{
    match value? {
        Json::Arr(items) => items.get(position as usize),
        _ => None,
    }
}

/// The value to which the step leads.
fn value_past(value: Option<&Json>, step: PathStep) -> Option<&Json>
    ensures { option_copied result ≡ value_past (option_copied value.entry) step }
{
    match step {
        PathStep::Member(position) => Some(&member_at(value, position)?.value),
        PathStep::Place(position) => item_at(value, position),
        PathStep::Absent(_, _) => None,
    }
}

/// The name of the object's member at the position; none of what is not there.
fn given_name(value: Option<&Json>, position: u64) -> &[u8]
    ensures { result.now ≡ option_map_or (λ (x : GivenMember). x.name) (member_at (option_copied value.entry) position) [] }
{
    match member_at(value, position) {
        Some(member) => member.name.as_slice(),
        None => &[],
    }
}

fn members_at(kinds: &[Kind], type_id: u32) -> &[MemberDef]
    ensures { result.now ≡ members_of (kind_of kinds.now type_id) }
{
    match kinds.get(type_id as usize) {
        Some(kind) => kind.members(),
        None => &[],
    }
}

/// The name of the type's member at the position; none of what is not there.
fn own_name(schema: &Schema, type_id: u32, position: u32) -> &[u8]
    ensures { result.now ≡ option_map_or (λ (m : TypeMember). m.name) (slice_get (members_of (kind_of schema.now.kinds type_id)) position) [] }
{
    match members_at(schema.parts().kinds.as_slice(), type_id).get(position as usize) {
        Some(member) => member.name.as_slice(),
        None => &[],
    }
}

fn write_name(before: &[u8], name: &[u8], out: &mut Text) -> Result<(), NoMemory>
    ensures { OnOk result (out.new ≡ out.old ++ (before.now ++ name.now)) }
{
    out.extend(before)?;
    out.extend(name)
}

fn write_place(place: u64, out: &mut Text) -> Result<(), NoMemory>
    ensures { OnOk result (out.new ≡ out.old ++ (codes "[" ++ (decimal place ++ codes "]"))) }
{
    let mut buffer = Buffer::new();
    out.extend(b"[")?;
    out.extend(buffer.format(place).as_bytes())?;
    out.extend(b"]")
}

/// Appends what the step prints, where a name stands behind the bytes of `before`.
fn write_step(
    schema: &Schema,
    before: &[u8],
    value: Option<&Json>,
    step: PathStep,
    out: &mut Text,
) -> Result<(), NoMemory>
    ensures { OnOk result (out.new ≡ out.old ++ step_text schema.now.kinds before.now (option_copied value.entry) step) }
{
    match step {
        PathStep::Member(position) => write_name(before, given_name(value, position), out),
        PathStep::Place(position) => write_place(position, out),
        PathStep::Absent(type_id, position) => {
            write_name(before, own_name(schema, type_id, position), out)
        }
    }
}

/// The text of the way from a value to a fault in it, as `a.b[3].c`; None stands for the empty
/// object. The path is one that an `admit` call gave for the value: of a step to what is not there
/// no name is printed.
pub fn path_text(
    alloc: Global,
    schema: &Schema,
    value: Option<&Json>,
    path: &PathList,
) -> Result<Text, NoMemory>
    ensures { IfOk result (λ text. text ≡ printed_path schema.now.kinds (option_copied value.entry) path.now) }
{
    let mut text = Text::new(alloc);
    let mut before: &[u8] = b"";
    let mut here = value;
    let steps = path.as_slice();
    for (i, step) in steps.iter().enumerate() {
        write_step(schema, before, here, *step, &mut text)?;
        here = value_past(here, *step);
        before = b".";
    }
    Ok(text)
}
