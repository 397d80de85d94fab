ghost use Rattle.std.specs.Prelude.{◌≡◌, IfOk};
ghost use Rattle.std.specs.Option.{option_copied};
ghost use Rattle.qapi_define.specs.References.{type_named, arrays_of, only_text as only_text_of, reference_in};

use crate::definition::TypeName;
use crate::trees::text;
use qapi_tree::Tree;
use qm_base::{NoMemory, Text};
use std::alloc::Global;

/// The string that is the one item.
fn only_text(items: &[Tree]) -> Option<&Text>
    ensures { option_copied result ≡ only_text_of items.now }
{
    match items {
        [item] => text(item),
        _ => None,
    }
}

fn type_named(alloc: Global, name: &Text) -> Result<TypeName, NoMemory>
    ensures { IfOk result (λ of. of ≡ type_named name.now) }
{
    let name = name.copy(alloc)?;
    Ok(TypeName {
        name,
        is_array: false,
    })
}

fn arrays_of(alloc: Global, name: &Text) -> Result<TypeName, NoMemory>
    ensures { IfOk result (λ of. of ≡ arrays_of name.now) }
{
    let name = name.copy(alloc)?;
    Ok(TypeName {
        name,
        is_array: true,
    })
}

/// A type reference: a string, or a list of one string.
pub fn reference(alloc: Global, tree: &Tree) -> Result<Option<TypeName>, NoMemory>
    ensures { IfOk result (λ of. of ≡ reference_in tree.now) }
{
    match tree {
        Tree::Str(name) => Ok(Some(type_named(alloc, name)?)),
        Tree::List(items) => match only_text(items.as_slice()) {
            Some(name) => Ok(Some(arrays_of(alloc, name)?)),
            None => Ok(None),
        },
        Tree::Flag(_) | Tree::Dict(_) => Ok(None),
    }
}
