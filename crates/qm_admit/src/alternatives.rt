ghost use Rattle.std.specs.Prelude.{◌≡◌, ◌<◌, length, find, IfSome};
ghost use Rattle.qapi_types.specs.Types.{kind_of, json_kind_of};
ghost use Rattle.qm_json.specs.declared.value.Json.{out-Json};
ghost use Rattle.qm_admit.specs.Misfits.{is_of, alternative_of};
ghost use Rattle.qm_admit.specs.Views.{kind_in};

use qapi_types::lookups::json_kind_at;
use qapi_types::{JsonKind, Kind, Schema};
use qm_json::Json;

/// The kind of the value.
pub fn sort_of(value: &Json) -> JsonKind
    ensures { result ≡ kind_in (out-Json value.now) }
{
    match value {
        Json::Null => JsonKind::Null,
        Json::Bool(_) => JsonKind::Boolean,
        Json::Int(_) => JsonKind::Number,
        Json::Num(_) => JsonKind::Number,
        Json::Str(_) => JsonKind::String,
        Json::Arr(_) => JsonKind::Array,
        Json::Obj(_) => JsonKind::Object,
    }
}

/// Whether the kind is this one.
pub fn is_of(sort: JsonKind, kind: Option<JsonKind>) -> bool
    ensures { result ≡ is_of sort kind }
{
    match kind {
        None => false,
        Some(other) => sort == other,
    }
}

/// The first of the types whose values are of the kind.
fn alternative_in(kinds: &[Kind], sort: JsonKind, types: &[u32]) -> Option<u32>
    ensures { result ≡ find (λ a. is_of sort (json_kind_of (kind_of kinds.now a))) types.now }
{
    for a in types {
        if is_of(sort, json_kind_at(kinds, *a)) {
            return Some(*a);
        }
    }
    None
}

/// The type itself, or of an alternate the alternative whose values are of the kind.
pub fn alternative(schema: &Schema, sort: JsonKind, type_id: u32) -> Option<u32>
    requires { type_id < length schema.now.kinds }
    ensures value { result ≡ alternative_of schema.now.kinds sort type_id (kind_of schema.now.kinds type_id) }
    ensures within { IfSome result (λ a. a < length schema.now.kinds) }
{
    let kinds = schema.parts().kinds.as_slice();
    match schema.kind(type_id) {
        Kind::Alternate(types, _) => alternative_in(kinds, sort, types.as_slice()),
        _ => Some(type_id),
    }
}
