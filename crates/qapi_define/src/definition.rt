use qm_base::{GrowingList, Text};

/// Texts in order, as features are.
pub type Names = GrowingList<Text>;

/// The values of an enum in the order of the text.
pub type EnumValueList = GrowingList<EnumValue>;

/// Members in the order of the text.
pub type MemberList = GrowingList<Member>;

/// Branches or alternatives in the order of the text.
pub type VariantList = GrowingList<Variant>;

/// What a definition says, in the order of the text.
pub type PartList = GrowingList<Part>;

/// Definitions in reading order.
pub type DefinitionList = GrowingList<Definition>;

/// A reference to a type, or to arrays of it (QAPI code generation guide, "Type references and
/// array types").
#[derive(Debug, Drop)]
pub struct TypeName {
    /// The name of the type, or of the type of the elements.
    pub name: Text,
    /// Whether arrays are meant.
    pub is_array: bool,
}

/// A value of an enum (QAPI code generation guide, "Enumeration types").
#[derive(Debug, Drop)]
pub struct EnumValue {
    /// The value.
    pub name: Text,
    /// Its features.
    pub features: Names,
    /// Whether the features stand before the name in the text.
    pub features_first: bool,
}

/// A member of an object type (QAPI code generation guide, "Struct types").
#[derive(Debug, Drop)]
pub struct Member {
    /// The name, without the star that marks an optional member.
    pub name: Text,
    /// Whether it may be absent.
    pub optional: bool,
    /// Its type.
    pub of: TypeName,
    /// Its features.
    pub features: Names,
}

/// A branch of a union, or an alternative of an alternate (QAPI code generation guide, "Union
/// types", "Alternate types").
#[derive(Debug, Drop)]
pub struct Variant {
    /// The value of the tag that chooses the branch, or the name of the alternative.
    pub name: Text,
    /// Its type.
    pub of: TypeName,
}

/// Something that a definition says.
#[derive(Debug, Drop)]
pub enum Part {
    /// The values of an enum.
    Values(EnumValueList),
    /// The base of a struct or of a union, by its name.
    Base(Text),
    /// The members of a union's base, written out.
    BaseMembers(MemberList),
    /// The member of a union's base whose value chooses the branch.
    Discriminator(Text),
    /// The members of a struct, or those that a command takes or an event has, written out.
    Members(MemberList),
    /// What a command takes or an event has, by the name of a type.
    Data(Text),
    /// The branches of a union, or the alternatives of an alternate.
    Variants(VariantList),
    /// What a command returns.
    Returns(TypeName),
    /// The features of the definition.
    Features(Names),
}

/// What is defined (QAPI code generation guide, "Schema syntax").
#[derive(Clone, Copy, Debug, PartialEq, Eq)]
pub enum Sort {
    /// An enum.
    Enum,
    /// A struct.
    Struct,
    /// A union.
    Union,
    /// An alternate.
    Alternate,
    /// A command.
    Command,
    /// An event.
    Event,
}

/// The flags of a command or an event (QAPI code generation guide, "Commands", "Events").
#[derive(Clone, Copy, Debug, PartialEq, Eq)]
pub struct Flags {
    /// Whether the data may be a union.
    pub boxed: bool,
    /// Whether the command takes its own type, and not each object.
    pub generated: bool,
    /// Whether the command may be executed out of band.
    pub allow_oob: bool,
    /// Whether the command may be executed before the machine is configured.
    pub allow_preconfig: bool,
    /// Whether the command answers where it succeeds.
    pub success_response: bool,
}

/// A definition of a schema.
#[derive(Debug, Drop)]
pub struct Definition {
    /// The file that it stands in.
    pub file: Text,
    /// The line of its `{`.
    pub line: u32,
    /// What is defined.
    pub sort: Sort,
    /// The name that it defines.
    pub name: Text,
    /// Its flags, those that the text leaves out at their defaults.
    pub flags: Flags,
    /// What else it says, in the order of the text.
    pub parts: PartList,
}
