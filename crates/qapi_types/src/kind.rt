ghost use Rattle.std.specs.Prelude.{◌≡◌};
ghost use Rattle.qapi_types.specs.Types.{json_kind_of, members_of, branches_of, values_of};
ghost use Rattle.qapi_types.specs.Types.{tag_position};

use qm_base::{GrowingList, Text};

/// Texts in order, as features are.
pub type Names = GrowingList<Text>;

/// Values of an enum in the order of its definition.
pub type ValueList = GrowingList<ValueDef>;

/// Members of an object type, those of its bases first.
pub type MemberList = GrowingList<MemberDef>;

/// Branches of a union in the order of its definition.
pub type BranchList = GrowingList<Branch>;

/// Numbers of types.
pub type TypeList = GrowingList<u32>;

/// Types by their numbers.
pub type KindList = GrowingList<Kind>;

/// The whole types (QAPI code generation guide, "Built-in Types").
#[derive(Clone, Copy, Debug, PartialEq, Eq)]
pub enum Whole {
    /// From -2^63 to 2^63-1.
    Int,
    /// From -2^7 to 2^7-1.
    Int8,
    /// From -2^15 to 2^15-1.
    Int16,
    /// From -2^31 to 2^31-1.
    Int32,
    /// From -2^63 to 2^63-1.
    Int64,
    /// From 0 to 2^8-1.
    Uint8,
    /// From 0 to 2^16-1.
    Uint16,
    /// From 0 to 2^32-1.
    Uint32,
    /// From 0 to 2^64-1.
    Uint64,
    /// From 0 to 2^64-1.
    Size,
}

/// A value of an enum (QAPI code generation guide, "Enumeration types").
#[derive(Debug, Drop)]
pub struct ValueDef {
    /// The value.
    pub name: Text,
    /// Its features.
    pub features: Names,
}

/// A member of an object type (QAPI code generation guide, "Struct types").
#[derive(Debug, Drop)]
pub struct MemberDef {
    /// The name, without the star that marks an optional member.
    pub name: Text,
    /// The number of its type.
    pub type_id: u32,
    /// Whether it may be absent.
    pub optional: bool,
    /// Its features.
    pub features: Names,
}

/// A branch of a union (QAPI code generation guide, "Union types").
#[derive(Clone, Copy, Debug, PartialEq, Eq)]
pub struct Branch {
    /// The position of the value in the tag's enum that chooses the branch, counted from 0.
    pub value: u32,
    /// The number of the object type whose members the branch adds.
    pub type_id: u32,
}

/// A struct, a union, or the members of one command or event. Of a base nothing is left but its
/// members, which stand first.
#[derive(Debug, Drop)]
pub struct ObjectDef {
    /// The members, those of its bases first.
    pub members: MemberList,
    /// The position of the tag in the members, counted from 0, where the type is a union.
    pub tag: Option<u32>,
    /// The branches; a value of the tag may have none.
    pub branches: BranchList,
    /// The features of the definition.
    pub features: Names,
}

/// What a type is (QAPI code generation guide, "Schema syntax").
#[derive(Debug, Drop)]
pub enum Kind {
    /// All strings.
    Str,
    /// All numbers.
    Number,
    /// The whole numbers of a range.
    Whole(Whole),
    /// The two booleans.
    Bool,
    /// Null.
    Null,
    /// All values.
    Any,
    /// One of some strings; and the features of the definition.
    Enum(ValueList, Names),
    /// Arrays whose elements are of the type of this number.
    Array(u32),
    /// Objects.
    Object(ObjectDef),
    /// What is of one of the types of these numbers; and the features of the definition.
    Alternate(TypeList, Names),
}

/// The kinds of JSON values (RFC 8259, section 3).
#[derive(Clone, Copy, Debug, PartialEq, Eq)]
pub enum JsonKind {
    /// The literal null.
    Null,
    /// The literals true and false.
    Boolean,
    /// Numbers.
    Number,
    /// Strings.
    String,
    /// Arrays.
    Array,
    /// Objects.
    Object,
}

impl Kind {
    /// The kind of JSON values that are of the type; None for the type of all values and for
    /// an alternate, whose values are of several kinds.
    pub fn json_kind(&self) -> Option<JsonKind>
        ensures { result ≡ json_kind_of self.now }
    {
        match self {
            Kind::Str => Some(JsonKind::String),
            Kind::Number => Some(JsonKind::Number),
            Kind::Whole(_) => Some(JsonKind::Number),
            Kind::Bool => Some(JsonKind::Boolean),
            Kind::Null => Some(JsonKind::Null),
            Kind::Any => None,
            Kind::Enum(_, _) => Some(JsonKind::String),
            Kind::Array(_) => Some(JsonKind::Array),
            Kind::Object(_) => Some(JsonKind::Object),
            Kind::Alternate(_, _) => None,
        }
    }

    /// The members of an object type, those of its bases first; none of any other type.
    pub fn members(&self) -> &[MemberDef]
        ensures { result.now ≡ members_of self.now }
    {
        match self {
            Kind::Object(def) => def.members.as_slice(),
            _ => &[],
        }
    }

    /// The branches of an object type; none of any other type.
    pub fn branches(&self) -> &[Branch]
        ensures { result.now ≡ branches_of self.now }
    {
        match self {
            Kind::Object(def) => def.branches.as_slice(),
            _ => &[],
        }
    }

    /// The values of an enum; none of any other type.
    pub fn values(&self) -> &[ValueDef]
        ensures { result.now ≡ values_of self.now }
    {
        match self {
            Kind::Enum(values, _) => values.as_slice(),
            _ => &[],
        }
    }

    /// The position of the tag in the members, where the type is a union.
    pub fn tag(&self) -> Option<u32>
        ensures { result ≡ tag_position self.now }
    {
        match self {
            Kind::Object(def) => def.tag,
            _ => None,
        }
    }
}
