ghost use Rattle.std.specs.Prelude.{◌≡◌, [], ◌∷◌, ◌++◌, OnOk};
ghost use Rattle.qapi_tree.specs.Spelling.{has_key};

use crate::release::release;
use crate::tree::{Tree, TreeMember};
use qm_base::{NameTable, NoMemory, Text};
use sqlite_items::Items;
use std::alloc::Global;
use std::marker::Model;
use std::mem;

/// The members of an object that is open, with a table of their keys.
#[derive(Drop)]
pub struct NamedMembers {
    members: Items<TreeMember>,
    names: NameTable,
}

impl Model for NamedMembers {
    ghost use Rattle.std.specs.Prelude.{List};
    ghost use Rattle.std.specs.Coded.{codes};
    ghost use Rattle.qm_base.specs.Names.{AreNamesOf};
    ghost use Rattle.qapi_tree.specs.declared.tree.TreeMember.{TreeMember};
    ghost use Rattle.qapi_tree.specs.contracts.tree.Tree as tree;
    ghost use Rattle.qapi_tree.specs.contracts.tree.TreeMember as member;

    ghost Value = { List TreeMember };

    ghost coded = { Prim.hlevel (codes, tree.the_row.coded, member.the_row.coded) };

    ghost invariant = { λ m. AreNamesOf (λ n. n.key) m.names m.members };

    ghost view = { λ m. m.members };
}

impl NamedMembers {
    /// No members. It takes no memory.
    pub fn new(alloc: Global) -> NamedMembers
        ensures { result ≡ [] }
    {
        NamedMembers {
            members: Items::new(alloc),
            names: NameTable::new(alloc),
        }
    }

    /// Whether a member has the key.
    pub fn has(&self, key: &[u8]) -> bool
        ensures { result ≡ has_key self.now key.now }
    {
        self.names.has(key)
    }

    /// Takes the memory for one more member, but for its key.
    pub fn make_place(&mut self, alloc: Global) -> Result<(), NoMemory>
        ensures { OnOk result (self.new ≡ self.old) }
    {
        let key = Text::new(alloc);
        let tree = Tree::Flag(false);
        make_place(&mut self.members, TreeMember { key, tree })
    }

    /// Appends a member. Where memory is wanting, all is let go without recursion.
    #[tactic(auto, using(qm_base::proofs::NameLemmas::names_more))]
    pub fn push(&mut self, alloc: Global, key: Text, tree: Tree) -> Result<(), NoMemory>
        ensures { OnOk result (self.new ≡ self.old ++ record { key = key; tree = tree } ∷ []) }
    {
        if self.names.add(alloc, key.as_slice()).is_err() {
            release(tree);
            empty(alloc, &mut self.members, &mut self.names);
            return Err(NoMemory);
        }
        if self.members.push(TreeMember { key, tree }).is_err() {
            empty(alloc, &mut self.members, &mut self.names);
            return Err(NoMemory);
        }
        Ok(())
    }

    /// The members alone.
    pub fn into_items(self) -> Items<TreeMember>
        ensures { result ≡ self }
    {
        self.members
    }
}

/// Lets go all members and their names.
fn empty(alloc: Global, members: &mut Items<TreeMember>, names: &mut NameTable)
    ensures members { members.new ≡ [] }
    ensures names { names.new ≡ [] }
{
    *names = NameTable::new(alloc);
    release(Tree::Dict(mem::replace(members, Items::new(alloc))));
}

/// Takes the memory for one more item, which takes none from then on.
pub fn make_place<T: Drop>(items: &mut Items<T>, item: T) -> Result<(), NoMemory>
    ensures { items.new ≡ items.old }
{
    items.push(item)?;
    let _ = items.pop();
    Ok(())
}
