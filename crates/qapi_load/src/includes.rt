ghost use Rattle.std.specs.Prelude.{◌≡◌, IfOk, find};
ghost use Rattle.std.specs.Str.{bytes_eq};
ghost use Rattle.std.specs.Option.{option_copied};
ghost use Rattle.qapi_load.specs.Loading.{folder_of, full_name, included_by, is_pragma as pragma, string_of};

use qapi_tree::{Expr, Tree, TreeMember};
use qm_base::{NoMemory, Text};
use std::alloc::Global;

fn string(tree: &Tree) -> Option<&Text>
    ensures { option_copied result ≡ string_of tree.now }
{
    match tree {
        Tree::Str(text) => Some(text),
        Tree::Flag(_) | Tree::List(_) | Tree::Dict(_) => None,
    }
}

fn has_key(member: &TreeMember, key: &[u8]) -> bool
    ensures { result ≡ bytes_eq member.now.key key.now }
{
    member.key.as_slice() == key
}

/// The first member of a key.
fn member_at<'a>(members: &'a [TreeMember], key: &[u8]) -> Option<&'a TreeMember>
    ensures { option_copied result ≡ find (λ m. bytes_eq m.key key.now) members.now }
{
    members.iter().find(|member| has_key(member, key))
}

/// What an expression includes, if it is an include.
pub fn included(expr: &Expr) -> Option<&Text>
    ensures { option_copied result ≡ included_by expr.now }
{
    match member_at(expr.keys.as_slice(), b"include") {
        Some(member) => string(&member.tree),
        None => None,
    }
}

/// Whether an expression is a pragma.
pub fn is_pragma(expr: &Expr) -> bool
    ensures { result ≡ pragma expr.now }
{
    expr.keys
        .as_slice()
        .iter()
        .any(|member| member.key.as_slice() == b"pragma".as_slice())
}

/// A file's name up to its last `/`.
fn folder(file: &[u8]) -> &[u8]
    ensures { result.now ≡ folder_of file.now }
{
    let mut end = 0;
    for (i, byte) in file.iter().enumerate() {
        if *byte == b'/' {
            end = i + 1;
        }
    }
    &file[..end]
}

/// The full name of what a file includes.
pub fn full(alloc: Global, file: &[u8], name: &[u8]) -> Result<Text, NoMemory>
    ensures { IfOk result (λ text. text ≡ full_name file.now name.now) }
{
    let mut text = Text::of(alloc, folder(file))?;
    text.extend(name)?;
    Ok(text)
}
