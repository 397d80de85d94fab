ghost use Rattle.std.specs.Prelude.{◌≡◌, [], ◌∷◌, ◌++◌, IfOk, OnOk};
ghost use Rattle.qapi_define.specs.declared.definition.Part.TheVariants as part;
ghost use Rattle.qapi_number.specs.Prelude.{flags as flags_of, defined as defined_as, value, type_of_name as type_of, member, optional_array, struct as struct_of, event as event_of, takes as takes_of, returns as returns_of, enum as enum_of};

use qapi_define::{
    Definition, EnumValue, EnumValueList, Flags, Member, MemberList, Names, Part, PartList, Sort,
    TypeName,
};
use qm_base::{GrowingList, NoMemory, Text};
use std::alloc::Global;

fn flags(allow_preconfig: bool) -> Flags
    ensures { result ≡ flags_of allow_preconfig }
{
    Flags {
        boxed: false,
        generated: true,
        allow_oob: false,
        allow_preconfig,
        success_response: true,
    }
}

/// A definition of no file, at line 0.
pub fn defined(
    alloc: Global,
    sort: Sort,
    name: &[u8],
    allow_preconfig: bool,
    parts: PartList,
) -> Result<Definition, NoMemory>
    ensures { IfOk result (λ d. d ≡ defined_as sort name.now allow_preconfig parts) }
{
    let name = Text::of(alloc, name)?;
    Ok(Definition {
        file: Text::new(alloc),
        line: 0,
        sort,
        name,
        flags: flags(allow_preconfig),
        parts,
    })
}

fn saying(
    alloc: Global,
    sort: Sort,
    name: &[u8],
    allow_preconfig: bool,
    part: Part,
) -> Result<Definition, NoMemory>
    ensures { IfOk result (λ d. d ≡ defined_as sort name.now allow_preconfig (part ∷ [])) }
{
    let mut parts = GrowingList::new(alloc);
    parts.push(part)?;
    defined(alloc, sort, name, allow_preconfig, parts)
}

fn type_of_name(alloc: Global, name: &[u8], is_array: bool) -> Result<TypeName, NoMemory>
    ensures { IfOk result (λ t. t ≡ type_of name.now is_array) }
{
    let name = Text::of(alloc, name)?;
    Ok(TypeName { name, is_array })
}

/// Adds a value without features.
pub fn add_value(alloc: Global, values: &mut EnumValueList, name: &[u8]) -> Result<(), NoMemory>
    ensures { OnOk result (values.new ≡ values.old ++ value name.now ∷ []) }
{
    let name = Text::of(alloc, name)?;
    values.push(EnumValue {
        name,
        features: GrowingList::new(alloc),
        features_first: false,
    })
}

/// Adds a mandatory member, with its type's name.
pub fn add_member(
    alloc: Global,
    members: &mut MemberList,
    name: &[u8],
    of: &[u8],
) -> Result<(), NoMemory>
    ensures { OnOk result (members.new ≡ members.old ++ member name.now of.now ∷ []) }
{
    let name = Text::of(alloc, name)?;
    let of = type_of_name(alloc, of, false)?;
    members.push(Member {
        name,
        optional: false,
        of,
        features: GrowingList::new(alloc),
    })
}

/// Adds a member that may be absent, an array of the type of the name.
pub fn add_optional_array(
    alloc: Global,
    members: &mut MemberList,
    name: &[u8],
    of: &[u8],
) -> Result<(), NoMemory>
    ensures { OnOk result (members.new ≡ members.old ++ optional_array name.now of.now ∷ []) }
{
    let name = Text::of(alloc, name)?;
    let of = type_of_name(alloc, of, true)?;
    members.push(Member {
        name,
        optional: true,
        of,
        features: GrowingList::new(alloc),
    })
}

/// An enum of values.
pub fn enum_named(alloc: Global, name: &[u8], values: EnumValueList) -> Result<Definition, NoMemory>
    ensures { IfOk result (λ d. d ≡ enum_of name.now values) }
{
    saying(alloc, Sort::Enum, name, false, Part::Values(values))
}

/// A struct of members.
pub fn struct_named(alloc: Global, name: &[u8], members: MemberList) -> Result<Definition, NoMemory>
    ensures { IfOk result (λ d. d ≡ struct_of name.now members) }
{
    saying(alloc, Sort::Struct, name, false, Part::Members(members))
}

/// An event of members.
pub fn event_named(alloc: Global, name: &[u8], members: MemberList) -> Result<Definition, NoMemory>
    ensures { IfOk result (λ d. d ≡ event_of name.now members) }
{
    saying(alloc, Sort::Event, name, false, Part::Members(members))
}

/// A command that takes members and returns nothing.
pub fn takes(
    alloc: Global,
    name: &[u8],
    allow_preconfig: bool,
    members: MemberList,
) -> Result<Definition, NoMemory>
    ensures { IfOk result (λ d. d ≡ takes_of name.now allow_preconfig members) }
{
    let part = Part::Members(members);
    saying(alloc, Sort::Command, name, allow_preconfig, part)
}

/// A command that takes nothing.
pub fn returns(
    alloc: Global,
    name: &[u8],
    allow_preconfig: bool,
    of: &[u8],
    is_array: bool,
) -> Result<Definition, NoMemory>
    ensures { IfOk result (λ d. d ≡ returns_of name.now allow_preconfig of.now is_array) }
{
    let part = Part::Returns(type_of_name(alloc, of, is_array)?);
    saying(alloc, Sort::Command, name, allow_preconfig, part)
}
