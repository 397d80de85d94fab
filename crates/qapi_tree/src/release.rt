//! Trees are let go without recursion and without memory. While a container's values are let go,
//! the container around it stands as its last value, in a place that became free.

use crate::tree::{Tree, TreeMember};
use qm_base::Text;
use std::mem;

/// A value that was taken out of a container, with its key where that is an object.
#[derive(Drop)]
struct Taken {
    key: Option<Text>,
    tree: Tree,
}

/// Takes out the last value inside.
fn take_last(tree: &mut Tree) -> Option<Taken> {
    match tree {
        Tree::Flag(_) | Tree::Str(_) => None,
        Tree::List(items) => {
            let tree = items.pop()?;
            Some(Taken { key: None, tree })
        }
        Tree::Dict(members) => {
            let TreeMember { key, tree } = members.pop()?;
            let key = Some(key);
            Some(Taken { key, tree })
        }
    }
}

/// Puts a value in as the last one, where a place is free.
fn put_last(tree: &mut Tree, key: Option<Text>, last: Tree) {
    match tree {
        Tree::Flag(_) | Tree::Str(_) => {}
        Tree::List(items) => {
            let _ = items.push(last);
        }
        Tree::Dict(members) => {
            if let Some(key) = key {
                let _ = members.push(TreeMember { key, tree: last });
            }
        }
    }
}

fn put_back(tree: &mut Tree, outer: Option<Taken>) {
    if let Some(Taken { key, tree: last }) = outer {
        put_last(tree, key, last);
    }
}

/// Goes on inside a value that was taken out of the current one, unless it has none inside. One of
/// its values takes its place, and the current one stands in the place of that.
fn enter(current: &mut Tree, child: Taken, outer: Option<Taken>) -> bool {
    let Taken {
        key,
        tree: mut inner,
    } = child;
    match take_last(&mut inner) {
        None => {
            put_back(current, outer);
            false
        }
        Some(
            Taken {
                key: inner_key,
                tree: moved,
            },
        ) => {
            put_last(current, key, moved);
            put_back(current, outer);
            let before = mem::replace(current, inner);
            put_last(current, inner_key, before);
            true
        }
    }
}

/// Lets a tree go, however deeply it nests.
pub fn release(tree: Tree) {
    let mut current = tree;
    let mut depth = 0u64;
    for _ in 0..u64::MAX {
        let Some(last) = take_last(&mut current) else {
            return;
        };
        if depth == 0 {
            if enter(&mut current, last, None) {
                depth = 1;
            }
        } else {
            match take_last(&mut current) {
                Some(child) => {
                    if enter(&mut current, child, Some(last)) {
                        depth = depth.saturating_add(1);
                    }
                }
                None => {
                    current = last.tree;
                    depth -= 1;
                }
            }
        }
    }
}
