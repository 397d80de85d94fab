ghost use Rattle.std.specs.Prelude.{◌≡◌, ◌<◌, ℕ, List, length, cond, None};
ghost use Rattle.qapi_types.specs.declared.kind.Kind.{Kind as AnyKind};
ghost use Rattle.qapi_types.specs.Types.{kind_of, value_names};
ghost use Rattle.qm_base.specs.Names.{is_named};
ghost use Rattle.qm_json.specs.declared.value.Json.TheOpen as layer;
ghost use Rattle.qm_admit.specs.declared.verdict.Fault.TheVariants.{OutOfRange, BadEnum, WrongKind};
ghost use Rattle.qm_admit.specs.Misfits.{here, kind_misfit};
ghost use Rattle.qm_admit.specs.Ranges.{is_in_range};
ghost use Rattle.qm_admit.specs.Walks.{at_once, is_any};

use crate::verdict::Fault;
use qapi_types::{Kind, Schema, Whole};

/// Whether the number is in the range of the type.
fn is_in_range(whole: Whole, n: i128) -> bool
    ensures { result ≡ is_in_range whole n }
{
    match whole {
        Whole::Int => -0x8000_0000_0000_0000 <= n && n < 0x8000_0000_0000_0000,
        Whole::Int8 => -0x80 <= n && n < 0x80,
        Whole::Int16 => -0x8000 <= n && n < 0x8000,
        Whole::Int32 => -0x8000_0000 <= n && n < 0x8000_0000,
        Whole::Int64 => -0x8000_0000_0000_0000 <= n && n < 0x8000_0000_0000_0000,
        Whole::Uint8 => 0 <= n && n < 0x100,
        Whole::Uint16 => 0 <= n && n < 0x1_0000,
        Whole::Uint32 => 0 <= n && n < 0x1_0000_0000,
        Whole::Uint64 => 0 <= n && n < 0x1_0000_0000_0000_0000,
        Whole::Size => 0 <= n && n < 0x1_0000_0000_0000_0000,
    }
}

fn range_fault(whole: Whole, n: i128) -> Option<Fault>
    ensures { at_once result ≡ cond (is_in_range whole n) None (here OutOfRange) }
{
    if is_in_range(whole, n) {
        None
    } else {
        Some(Fault::OutOfRange)
    }
}

/// Whether the text is a value of the enum.
fn is_value(schema: &Schema, type_id: u32, text: &[u8]) -> bool
    requires { type_id < length schema.now.kinds }
    ensures { result ≡ is_named (value_names (kind_of schema.now.kinds type_id)) text.now }
{
    schema.find_value(type_id, text).is_some()
}

fn enum_fault(schema: &Schema, type_id: u32, text: &[u8]) -> Option<Fault>
    requires { type_id < length schema.now.kinds }
    ensures { at_once result ≡ cond (is_named (value_names (kind_of schema.now.kinds type_id)) text.now) None (here BadEnum) }
{
    if is_value(schema, type_id, text) {
        None
    } else {
        Some(Fault::BadEnum)
    }
}

/// The fault of an array or an object at a type that is neither of its kind nor an alternate.
pub fn other_fault(kind: &Kind) -> Option<Fault>
    ensures { at_once result ≡ cond (is_any kind.now) None (here WrongKind) }
{
    match kind {
        Kind::Any => None,
        _ => Some(Fault::WrongKind),
    }
}

/// The fault of null at a type that is no alternate.
pub fn null_fault(kind: &Kind) -> Option<Fault>
    ensures { (table : List AnyKind) (t : ℕ) → kind_misfit table t kind.now layer.Json-F.Null ≡ at_once result }
{
    match kind {
        Kind::Any => None,
        Kind::Null => None,
        _ => Some(Fault::WrongKind),
    }
}

/// The fault of a boolean at a type that is no alternate.
pub fn bool_fault(kind: &Kind, value: bool) -> Option<Fault>
    ensures { (table : List AnyKind) (t : ℕ) → kind_misfit table t kind.now (layer.Json-F.Bool value) ≡ at_once result }
{
    match kind {
        Kind::Any => None,
        Kind::Bool => None,
        _ => Some(Fault::WrongKind),
    }
}

/// The fault of a whole number at a type that is no alternate.
pub fn int_fault(kind: &Kind, n: &i128) -> Option<Fault>
    ensures { (table : List AnyKind) (t : ℕ) → kind_misfit table t kind.now (layer.Json-F.Int n.now) ≡ at_once result }
{
    let n = *n;
    match kind {
        Kind::Any => None,
        Kind::Number => None,
        Kind::Whole(whole) => range_fault(*whole, n),
        _ => Some(Fault::WrongKind),
    }
}

/// The fault of any other number at a type that is no alternate.
pub fn num_fault(kind: &Kind, text: &[u8]) -> Option<Fault>
    ensures { (table : List AnyKind) (t : ℕ) → kind_misfit table t kind.now (layer.Json-F.Num text.now) ≡ at_once result }
{
    match kind {
        Kind::Any => None,
        Kind::Number => None,
        _ => Some(Fault::WrongKind),
    }
}

/// The fault of a string at a type that is no alternate.
pub fn text_fault(schema: &Schema, type_id: u32, text: &[u8]) -> Option<Fault>
    requires { type_id < length schema.now.kinds }
    ensures { kind_misfit schema.now.kinds type_id (kind_of schema.now.kinds type_id) (layer.Json-F.Str text.now) ≡ at_once result }
{
    match schema.kind(type_id) {
        Kind::Any => None,
        Kind::Str => None,
        Kind::Enum(_, _) => enum_fault(schema, type_id, text),
        _ => Some(Fault::WrongKind),
    }
}
