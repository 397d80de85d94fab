ghost use Rattle.std.specs.Prelude.{◌≡◌, ◌<◌, [], length, not, position};
ghost use Rattle.qapi_types.specs.Types.{kind_of, member_names};
ghost use Rattle.qm_base.specs.Names.{is_named};
ghost use Rattle.qm_json.specs.declared.value.Member.{Member as GivenMember};
ghost use Rattle.qm_admit.specs.Misfits.{is_known, unknown_misfit};
ghost use Rattle.qm_admit.specs.Walks.{Tells, inners, chosen_types};

use crate::choices::chosen;
use crate::path::{PathList, PathStep};
use crate::verdict::Fault;
use qapi_types::Schema;
use qm_json::Member;

/// Whether the type itself has a member of the name.
fn is_member(schema: &Schema, type_id: u32, name: &[u8]) -> bool
    requires { type_id < length schema.now.kinds }
    ensures { result ≡ is_named (member_names (kind_of schema.now.kinds type_id)) name.now }
{
    schema.find_member(type_id, name).is_some()
}

/// Whether the type, or a branch that the given members choose, has a member of the name.
fn is_known(schema: &Schema, type_id: u32, given: &[Member], name: &[u8]) -> bool
    requires { type_id < length schema.now.kinds }
    ensures { result ≡ is_known schema.now.kinds (chosen_types schema.now.kinds given.now type_id) name.now }
{
    let mut next = Some(type_id);
    let types = schema.types();
    for turn in 0..types {
        match next {
            None => return false,
            Some(own) => {
                if is_member(schema, own, name) {
                    return true;
                }
                next = chosen(schema, own, given);
            }
        }
    }
    false
}

/// The position of the first given member that neither the type nor a chosen branch has.
fn first_unknown(schema: &Schema, type_id: u32, given: &[Member]) -> Option<usize>
    requires { type_id < length schema.now.kinds }
    ensures { result ≡ position (λ (x : GivenMember). not (is_known schema.now.kinds (chosen_types schema.now.kinds given.now type_id) x.name)) given.now }
{
    for (i, member) in given.iter().enumerate() {
        if !is_known(schema, type_id, given, member.name.as_slice()) {
            return Some(i);
        }
    }
    None
}

/// The fault of the first given member that neither the type nor a chosen branch has.
pub fn unexpected(
    schema: &Schema,
    type_id: u32,
    given: &[Member],
    path: &mut PathList,
) -> Option<Fault>
    requires id { type_id < length schema.now.kinds }
    requires path { path.old ≡ [] }
    ensures { Tells (unknown_misfit schema.now.kinds (inners schema.now.kinds given.now) (chosen_types schema.now.kinds given.now type_id)) result path.new }
{
    match first_unknown(schema, type_id, given) {
        None => None,
        Some(i) => {
            path.prepend(PathStep::Member(i as u64));
            Some(Fault::Unexpected)
        }
    }
}
