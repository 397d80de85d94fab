ghost use Rattle.std.specs.Prelude.{◌≡◌};
ghost use Rattle.std.specs.Option.{option_copied};
ghost use Rattle.qapi_rules.specs.Meanings;

use crate::built_ins::is_built_in;
use qapi_define::{Definition, Sort};
use qapi_types::JsonKind;

const STR: &[u8] = b"str";

const BOOL: &[u8] = b"bool";

const NULL: &[u8] = b"null";

const ANY: &[u8] = b"any";

const QTYPE: &[u8] = b"QType";

const NONE: &[u8] = b"none";

const QNULL: &[u8] = b"qnull";

const QNUM: &[u8] = b"qnum";

const QSTRING: &[u8] = b"qstring";

const QDICT: &[u8] = b"qdict";

const QLIST: &[u8] = b"qlist";

const QBOOL: &[u8] = b"qbool";

/// A built-in type, by its values (QAPI code generation guide, "Built-in Types").
#[derive(Clone, Copy, Debug, PartialEq, Eq)]
pub enum BuiltIn {
    /// Values of one JSON kind.
    Simple(JsonKind),
    /// All values.
    Any,
    /// The enum of the kinds of values.
    QType,
}

/// What a name stands for.
#[derive(Clone, Copy)]
pub enum Meaning<'a> {
    /// Nothing.
    Nothing,
    /// A built-in type.
    BuiltIn(BuiltIn),
    /// What the definition defines.
    Defined(&'a Definition),
}

fn simple_kind(name: &[u8]) -> JsonKind
    ensures { result ≡ Meanings.simple_kind name.now }
{
    if name == STR {
        JsonKind::String
    } else if name == BOOL {
        JsonKind::Boolean
    } else if name == NULL {
        JsonKind::Null
    } else {
        JsonKind::Number
    }
}

/// The built-in type of the name, where it is the name of one (QAPI code generation guide,
/// "Built-in Types").
pub fn built_in_of(name: &[u8]) -> BuiltIn
    ensures { result ≡ Meanings.built_in_of name.now }
{
    if name == ANY {
        BuiltIn::Any
    } else if name == QTYPE {
        BuiltIn::QType
    } else {
        BuiltIn::Simple(simple_kind(name))
    }
}

/// What a name stands for, where the definition is the first one with it.
pub fn meaning_by<'a>(name: &[u8], definition: Option<&'a Definition>) -> Meaning<'a>
    ensures { Meanings.meant result ≡ Meanings.entity_by name.now (option_copied definition.entry) }
{
    if is_built_in(name) {
        return Meaning::BuiltIn(built_in_of(name));
    }
    match definition {
        Some(definition) => Meaning::Defined(definition),
        None => Meaning::Nothing,
    }
}

fn is_of_qtype(name: &[u8]) -> bool
    ensures { result ≡ Meanings.is_of_qtype name.now }
{
    name == NONE
        || name == QNULL
        || name == QNUM
        || name == QSTRING
        || name == QDICT
        || name == QLIST
        || name == QBOOL
}

fn defines_value(definition: &Definition, name: &[u8]) -> bool
    ensures { result ≡ Meanings.defines_value name.now definition.now }
{
    definition
        .values()
        .iter()
        .any(|value| value.name.as_slice() == name)
}

impl<'a> Meaning<'a> {
    /// Whether it is a type; commands and events are none.
    pub fn is_type(&self) -> bool
        ensures { result ≡ Meanings.is_type (Meanings.meant self.now) }
    {
        match self {
            Meaning::Nothing => false,
            Meaning::BuiltIn(_) => true,
            Meaning::Defined(definition) => !matches!(definition.sort, Sort::Command | Sort::Event),
        }
    }

    /// Whether it is a struct (QAPI code generation guide, "Struct types").
    pub fn is_struct(&self) -> bool
        ensures { result ≡ Meanings.is_struct (Meanings.meant self.now) }
    {
        match self {
            Meaning::Defined(definition) => matches!(definition.sort, Sort::Struct),
            _ => false,
        }
    }

    /// Whether it is a union (QAPI code generation guide, "Union types").
    pub fn is_union(&self) -> bool
        ensures { result ≡ Meanings.is_union (Meanings.meant self.now) }
    {
        match self {
            Meaning::Defined(definition) => matches!(definition.sort, Sort::Union),
            _ => false,
        }
    }

    /// Whether it is the type of all values or an alternate.
    pub fn is_mixed(&self) -> bool
        ensures { result ≡ Meanings.is_mixed (Meanings.meant self.now) }
    {
        match self {
            Meaning::BuiltIn(of) => matches!(of, BuiltIn::Any),
            Meaning::Defined(definition) => matches!(definition.sort, Sort::Alternate),
            Meaning::Nothing => false,
        }
    }

    /// Whether it is an enum (QAPI code generation guide, "Enumeration types").
    pub fn is_enum(&self) -> bool
        ensures { result ≡ Meanings.is_enum (Meanings.meant self.now) }
    {
        match self {
            Meaning::BuiltIn(of) => matches!(of, BuiltIn::QType),
            Meaning::Defined(definition) => matches!(definition.sort, Sort::Enum),
            Meaning::Nothing => false,
        }
    }

    /// Whether it is an enum with the value.
    pub fn has_value(&self, name: &[u8]) -> bool
        ensures { result ≡ Meanings.has_value name.now (Meanings.meant self.now) }
    {
        match self {
            Meaning::BuiltIn(BuiltIn::QType) => is_of_qtype(name),
            Meaning::BuiltIn(_) => false,
            Meaning::Defined(definition) => defines_value(definition, name),
            Meaning::Nothing => false,
        }
    }

    /// The kind of JSON values that are of the type; None for the type of all values and for an
    /// alternate, whose values are of several kinds (RFC 8259, section 3).
    pub fn kind(&self) -> Option<JsonKind>
        ensures { result ≡ Meanings.kind_of (Meanings.meant self.now) }
    {
        match self {
            Meaning::Nothing => None,
            Meaning::BuiltIn(BuiltIn::Simple(kind)) => Some(*kind),
            Meaning::BuiltIn(BuiltIn::QType) => Some(JsonKind::String),
            Meaning::BuiltIn(BuiltIn::Any) => None,
            Meaning::Defined(definition) => kind_of_sort(definition.sort),
        }
    }
}

fn kind_of_sort(sort: Sort) -> Option<JsonKind>
    ensures { result ≡ Meanings.kind_of_sort sort }
{
    match sort {
        Sort::Enum => Some(JsonKind::String),
        Sort::Struct | Sort::Union => Some(JsonKind::Object),
        _ => None,
    }
}

fn kind_number(kind: JsonKind) -> u8
    ensures { result ≡ Meanings.kind_number kind }
{
    match kind {
        JsonKind::Null => 0,
        JsonKind::Boolean => 1,
        JsonKind::Number => 2,
        JsonKind::String => 3,
        JsonKind::Array => 4,
        JsonKind::Object => 5,
    }
}

/// Whether two kinds are the same.
pub fn are_same(a: JsonKind, b: JsonKind) -> bool
    ensures { result ≡ Meanings.are_same a b }
{
    kind_number(a) == kind_number(b)
}
