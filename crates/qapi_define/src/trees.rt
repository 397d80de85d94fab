ghost use Rattle.std.specs.Prelude.{◌≡◌};
ghost use Rattle.std.specs.Option.{option_copied};
ghost use Rattle.std.specs.Str.{bytes_eq};
ghost use Rattle.qapi_define.specs.Trees.{text_of, flag_of, items_of, object_of, keys_of, value_at as value_of, text_at as text_of_key};

use qapi_tree::{Tree, TreeMember};
use qm_base::Text;

/// The bytes of a string.
pub fn text(tree: &Tree) -> Option<&Text>
    ensures { option_copied result ≡ text_of tree.now }
{
    match tree {
        Tree::Str(text) => Some(text),
        Tree::Flag(_) | Tree::List(_) | Tree::Dict(_) => None,
    }
}

/// Which of the words `true` and `false` it is.
pub fn flag(tree: &Tree) -> Option<bool>
    ensures { result ≡ flag_of tree.now }
{
    match tree {
        Tree::Flag(flag) => Some(*flag),
        Tree::Str(_) | Tree::List(_) | Tree::Dict(_) => None,
    }
}

/// The items of a list.
pub fn items(tree: &Tree) -> Option<&[Tree]>
    ensures { option_copied result ≡ items_of tree.now }
{
    match tree {
        Tree::List(items) => Some(items.as_slice()),
        Tree::Flag(_) | Tree::Str(_) | Tree::Dict(_) => None,
    }
}

/// The keys of an object, each with its value.
pub fn object(tree: &Tree) -> Option<&[TreeMember]>
    ensures { option_copied result ≡ object_of tree.now }
{
    match tree {
        Tree::Dict(keys) => Some(keys.as_slice()),
        Tree::Flag(_) | Tree::Str(_) | Tree::List(_) => None,
    }
}

/// The keys of an object; any other value has none.
pub fn keys(tree: &Tree) -> &[TreeMember]
    ensures { result.now ≡ keys_of tree.now }
{
    match object(tree) {
        Some(keys) => keys,
        None => &[],
    }
}

/// Whether it is the key of this name.
pub fn has_key(member: &TreeMember, name: &[u8]) -> bool
    ensures { result ≡ bytes_eq member.now.key name.now }
{
    member.key.as_slice() == name
}

/// The value of the first key of this name.
pub fn value_at<'a>(keys: &'a [TreeMember], name: &[u8]) -> Option<&'a Tree>
    ensures { option_copied result ≡ value_of keys.now name.now }
{
    let member = keys.iter().find(|member| has_key(member, name))?;
    Some(&member.tree)
}

/// The string that is the value of a key.
pub fn text_at<'a>(keys: &'a [TreeMember], name: &[u8]) -> Option<&'a Text>
    ensures { option_copied result ≡ text_of_key keys.now name.now }
{
    match value_at(keys, name) {
        Some(tree) => text(tree),
        None => None,
    }
}
