ghost use Rattle.std.specs.Prelude.{◌≡◌, ◌∷◌, [], ◌++◌, Bool, true, false, IfOk, OnOk, OnErr, ◌↔◌};
ghost use Rattle.std.specs.Option.{option_copied};
ghost use Rattle.qm_json.specs.Members.{has_name, member_of, value_in};

use crate::value::{Json, Member};
use qm_base::{NoMemory, Text};
use sqlite_items::Items;
use std::alloc::Global;
use std::marker::Model;

/// Why a member was not added.
#[derive(Clone, Copy, Debug, PartialEq, Eq)]
pub enum MemberFault {
    /// The name is there already.
    Twice,
    /// No memory was left.
    Memory,
}

/// Members from which an object is made.
#[derive(Debug, Drop)]
pub struct Members {
    items: Items<Member>,
}

impl Model for Members {
    ghost use Rattle.std.specs.Prelude.{List};
    ghost use Rattle.std.specs.Coded.{codes};
    ghost use Rattle.qm_json.specs.declared.value.Member.{Member};
    ghost use Rattle.qm_json.specs.contracts.value.Json as json;

    ghost Value = { List Member };

    ghost coded = { Prim.hlevel (codes, json.the_row.coded) };

    ghost view = { λ m. m.items };
}

fn find<'a>(members: &'a [Member], name: &[u8]) -> Option<&'a Json>
    ensures { option_copied result ≡ value_in members.now name.now }
{
    let member = members.iter().find(|m| m.name.as_slice() == name)?;
    Some(&member.value)
}

/// Whether a member has the name.
pub fn has_member(members: &[Member], name: &[u8]) -> bool
    ensures { result ≡ has_name members.now name.now }
{
    members.iter().any(|m| m.name.as_slice() == name)
}

impl Members {
    /// No members. It takes no memory.
    pub fn new(alloc: Global) -> Members
        ensures { result ≡ [] }
    {
        Members {
            items: Items::new(alloc),
        }
    }

    /// The members.
    pub fn as_slice(&self) -> &[Member]
        ensures { result.now ≡ self.now }
    {
        self.items.as_slice()
    }

    /// Appends a member. `Twice` comes exactly where the name is there; after an error the members
    /// are as before.
    pub fn push(&mut self, name: Text, value: Json) -> Result<(), MemberFault>
        ensures ok { OnOk result (self.new ≡ self.old ++ record { name = name; value = value } ∷ []) }
        ensures err { OnErr result (self.new ≡ self.old) }
        ensures twice { (result ≡ Err MemberFault.Twice) ↔ (has_name self.old name ≡ true) }
        ensures fresh { OnOk result (has_name self.old name ≡ false) }
    {
        if has_member(self.items.as_slice(), name.as_slice()) {
            return Err(MemberFault::Twice);
        }
        match self.items.push(Member { name, value }) {
            Ok(()) => Ok(()),
            Err(_) => Err(MemberFault::Memory),
        }
    }

    /// Appends a member of a name that is not there. An error leaves the members as before.
    pub fn add(&mut self, alloc: Global, name: &[u8], value: Json) -> Result<(), NoMemory>
        requires { has_name self.old name.now ≡ false }
        ensures ok { OnOk result (self.new ≡ self.old ++ record { name = name.now; value = value } ∷ []) }
        ensures err { OnErr result (self.new ≡ self.old) }
    {
        let name = Text::of(alloc, name)?;
        self.items.push(Member { name, value })?;
        Ok(())
    }

    /// The object of these members.
    pub fn into_json(self) -> Json
        ensures { result ≡ Json.Obj self }
    {
        Json::Obj(self.items)
    }
}

impl Json {
    /// A string of these bytes.
    pub fn string(alloc: Global, bytes: &[u8]) -> Result<Json, NoMemory>
        ensures { IfOk result (λ value. value ≡ Json.Str bytes.now) }
    {
        Ok(Json::Str(Text::of(alloc, bytes)?))
    }

    /// The value of an object's member of the name, and `None` where the value is no object or
    /// has no such member. Of equal names the first counts.
    pub fn member(&self, name: &[u8]) -> Option<&Json>
        ensures { option_copied result ≡ member_of self.now name.now }
    {
        match self {
            Json::Obj(members) => find(members.as_slice(), name),
            _ => None,
        }
    }
}
