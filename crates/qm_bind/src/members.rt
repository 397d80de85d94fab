ghost use Rattle.std.specs.Prelude.{◌≡◌};
ghost use Rattle.std.specs.List.{list_any};
ghost use Rattle.qapi_types.specs.Types.{branch_types, kind_of};
ghost use Rattle.qm_bind.specs.Arguments.{may_give, may_have as may_have_name, may_have_within};

use crate::scope::has_member;
use qapi_types::{ArgType, Branch, Schema};

/// Whether the type has a member of the name, or one along some choice of fewer branches than the
/// steps.
#[cycle(have)]
fn has_within(schema: &Schema, type_id: u32, name: &[u8], steps: usize) -> bool
    ensures { result ≡ may_have_within schema.now.kinds name.now steps type_id }
{
    if steps == 0 {
        return false;
    }
    has_member(schema, type_id, name)
        || (type_id < schema.types()
            && some_has(schema, schema.kind(type_id).branches(), name, steps - 1))
}

/// Whether one of the branches brings a member of the name.
#[cycle(have)]
fn some_has(schema: &Schema, branches: &[Branch], name: &[u8], steps: usize) -> bool
    ensures { result ≡ list_any (λ (b : Branch). may_have_within schema.now.kinds name.now steps b.type_id) branches.now }
{
    for branch in branches {
        if has_within(schema, branch.type_id, name, steps) {
            return true;
        }
    }
    false
}

/// Whether the type has a member of the name, or one along some choice of branches.
fn may_have(schema: &Schema, type_id: u32, name: &[u8]) -> bool
    ensures { result ≡ may_have_name schema.now.kinds type_id name.now }
{
    has_within(schema, type_id, name, schema.types() as usize)
}

/// Whether an argument of the name may be given. It takes no memory, and goes along each choice of
/// branches.
pub fn is_argument(schema: &Schema, arg: ArgType, name: &[u8]) -> bool
    ensures { result ≡ may_give schema.now.kinds arg name.now }
{
    match arg {
        ArgType::Typed(type_id) => may_have(schema, type_id, name),
        ArgType::AnyObject => true,
    }
}
