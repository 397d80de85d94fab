ghost use Rattle.std.specs.Prelude.{◌≡◌, IfOk, find};
ghost use Rattle.std.specs.Option.{is_some, option_copied};
ghost use Rattle.qapi_define.specs.Definitions.{sort_of as sort_by, flag_among as flag_of, flags_among as flags_of, definition_named, defined_by, definition_of, definitions_of};

use crate::conditions::is_kept;
use crate::definition::{Definition, DefinitionList, Flags, Sort};
use crate::lists::push_some;
use crate::parts::parts;
use crate::trees::{flag, has_key, text, value_at};
use qapi_load::Source;
use qapi_tree::TreeMember;
use qm_base::{NoMemory, Text};
use std::alloc::Global;

/// What a key defines.
fn sort_of(member: &TreeMember) -> Option<Sort>
    ensures { result ≡ sort_by member.now }
{
    if has_key(member, b"enum") {
        return Some(Sort::Enum);
    }
    if has_key(member, b"struct") {
        return Some(Sort::Struct);
    }
    if has_key(member, b"union") {
        return Some(Sort::Union);
    }
    if has_key(member, b"alternate") {
        return Some(Sort::Alternate);
    }
    if has_key(member, b"command") {
        return Some(Sort::Command);
    }
    if has_key(member, b"event") {
        return Some(Sort::Event);
    }
    None
}

/// A flag among keys; left out, it is the default.
fn flag_among(keys: &[TreeMember], name: &[u8], default: bool) -> bool
    ensures { result ≡ flag_of keys.now name.now default }
{
    match value_at(keys, name) {
        Some(tree) => flag(tree).unwrap_or(default),
        None => default,
    }
}

/// The flags among keys.
fn flags_among(keys: &[TreeMember]) -> Flags
    ensures { result ≡ flags_of keys.now }
{
    Flags {
        boxed: flag_among(keys, b"boxed", false),
        generated: flag_among(keys, b"gen", true),
        allow_oob: flag_among(keys, b"allow-oob", false),
        allow_preconfig: flag_among(keys, b"allow-preconfig", false),
        success_response: flag_among(keys, b"success-response", true),
    }
}

/// The definition of a sort and a name.
fn definition_named(
    alloc: Global,
    defines: &[Text],
    source: &Source,
    sort: Sort,
    name: &Text,
) -> Result<Definition, NoMemory>
    ensures { IfOk result (λ made. made ≡ definition_named defines.now source.now sort name.now) }
{
    let keys = source.expr.keys.as_slice();
    let file = source.file.copy(alloc)?;
    let name = name.copy(alloc)?;
    let parts = parts(alloc, defines, sort, keys)?;
    Ok(Definition {
        file,
        line: source.expr.line,
        sort,
        name,
        flags: flags_among(keys),
        parts,
    })
}

/// The definition whose name a key gives.
fn defined_by(
    alloc: Global,
    defines: &[Text],
    source: &Source,
    member: &TreeMember,
) -> Result<Option<Definition>, NoMemory>
    ensures { IfOk result (λ made. made ≡ defined_by defines.now source.now member.now) }
{
    let Some(sort) = sort_of(member) else {
        return Ok(None);
    };
    match text(&member.tree) {
        Some(name) => Ok(Some(definition_named(alloc, defines, source, sort, name)?)),
        None => Ok(None),
    }
}

fn is_naming(member: &TreeMember) -> bool
    ensures { result ≡ is_some (sort_by member.now) }
{
    sort_of(member).is_some()
}

/// The first key that defines something.
fn naming_key(keys: &[TreeMember]) -> Option<&TreeMember>
    ensures { option_copied result ≡ find (λ m. is_some (sort_by m)) keys.now }
{
    keys.iter().find(|member| is_naming(member))
}

/// What an expression defines.
fn definition(
    alloc: Global,
    defines: &[Text],
    source: &Source,
) -> Result<Option<Definition>, NoMemory>
    ensures { IfOk result (λ made. made ≡ definition_of defines.now source.now) }
{
    if !is_kept(alloc, defines, source.expr.keys.as_slice())? {
        return Ok(None);
    }
    match naming_key(source.expr.keys.as_slice()) {
        Some(member) => defined_by(alloc, defines, source, member),
        None => Ok(None),
    }
}

/// The definitions of a schema's expressions in reading order, where these names are defined. What
/// has a condition that does not hold is left out: an expression, a member, a value, a branch, an
/// alternative or a feature (QAPI code generation guide, "Configuring the schema"). `NoMemory` comes
/// where a growth is refused.
pub fn definitions(
    alloc: Global,
    sources: &[Source],
    defines: &[Text],
) -> Result<DefinitionList, NoMemory>
    ensures { IfOk result (λ definitions. definitions ≡ definitions_of defines.now sources.now) }
{
    let mut made = DefinitionList::new(alloc);
    for source in sources {
        push_some(&mut made, definition(alloc, defines, source)?)?;
    }
    Ok(made)
}
