ghost use Rattle.std.specs.Prelude.{◌≡◌, ◌<◌, length, IfSome, option_copied};
ghost use Rattle.qm_json.specs.Members.{value_in};
ghost use Rattle.qm_admit.specs.Fitting.{chosen, text_in};
ghost use Rattle.qm_admit.specs.Tags.{branch_at};
ghost use Rattle.qm_admit.specs.Views.{string_of};

use qapi_types::lookups::tag_member;
use qapi_types::{Branch, Schema};
use qm_json::{Json, Member};

/// The bytes of a string.
fn text_of(value: &Json) -> Option<&[u8]>
    ensures { option_copied result ≡ string_of value.now }
{
    match value {
        Json::Str(text) => Some(text.as_slice()),
        _ => None,
    }
}

/// The value of the first of the members of the name.
fn value_in<'a>(given: &'a [Member], name: &[u8]) -> Option<&'a Json>
    ensures { option_copied result ≡ value_in given.now name.now }
{
    let member = given.iter().find(|m| m.name.as_slice() == name)?;
    Some(&member.value)
}

/// The text of the first of the members of the name.
fn text_in<'a>(given: &'a [Member], name: &[u8]) -> Option<&'a [u8]>
    ensures { option_copied result ≡ text_in given.now name.now }
{
    text_of(value_in(given, name)?)
}

/// The type of the branch of the value that stands at the position.
fn branch_at(branches: &[Branch], position: u32) -> Option<u32>
    ensures { result ≡ branch_at branches.now position }
{
    let branch = branches.iter().find(|b| b.value == position)?;
    Some(branch.type_id)
}

/// The type of the branch that the given members choose by the type's tag.
pub fn chosen(schema: &Schema, type_id: u32, given: &[Member]) -> Option<u32>
    requires { type_id < length schema.now.kinds }
    ensures value { result ≡ chosen schema.now.kinds given.now type_id }
    ensures within { IfSome result (λ b. b < length schema.now.kinds) }
{
    let _parts = schema.parts();
    let kind = schema.kind(type_id);
    let tag = tag_member(kind)?;
    let text = text_in(given, tag.name.as_slice())?;
    let value = schema.find_value(tag.type_id, text)?;
    branch_at(kind.branches(), value)
}
