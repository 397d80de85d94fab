ghost use Rattle.std.specs.Prelude.{◌≡◌, IfOk};
ghost use Rattle.qapi_rules.specs.Blames.{told};

use qm_base::{NoMemory, Text};
use std::alloc::Global;

/// A rule that a schema can break.
#[derive(Clone, Copy, PartialEq, Eq, Debug, Drop)]
pub enum CheckRule {
    /// A name is not formed as names are.
    BadName,
    /// The name is a built-in type's, or an earlier definition has it.
    Redefined,
    /// A command without a response where it succeeds.
    NoSuccessResponse,
    /// A name stands twice among members, values, branches, alternatives or features.
    MemberClash,
    /// A reference is to no type.
    UnknownType,
    /// The base is no struct.
    BadBase,
    /// The discriminator is no mandatory member of the base whose type is an enum.
    BadDiscriminator,
    /// A branch is for no value of the discriminator's enum.
    UnknownBranch,
    /// Two alternatives take the same kind of JSON values.
    KindClash,
    /// A branch, an alternative or the data of a command or an event is of a type that cannot stand
    /// there.
    BadData,
    /// The definition lies on a cycle of bases and branches.
    BaseCycle,
    /// No memory was left.
    Memory,
}

/// Why a schema is refused.
#[derive(Debug, Drop)]
pub struct CheckFault {
    /// The rule that is broken.
    pub rule: CheckRule,
    /// The file of the definition.
    pub file: Text,
    /// The line of the definition's `{`.
    pub line: u32,
    /// The name at fault.
    pub name: Text,
}

/// Why a schema is refused, as it stands in the definitions.
#[derive(Clone, Copy, Drop)]
pub struct Blame<'a> {
    /// The rule that is broken.
    pub rule: CheckRule,
    /// The file of the definition.
    pub file: &'a [u8],
    /// The line of the definition's `{`.
    pub line: u32,
    /// The name at fault.
    pub name: &'a [u8],
}

impl<'a> Blame<'a> {
    /// The same with texts of its own.
    pub fn owned(self, alloc: Global) -> Result<CheckFault, NoMemory>
        ensures { IfOk result (λ fault. fault ≡ told self.entry) }
    {
        let file = Text::of(alloc, self.file)?;
        let name = Text::of(alloc, self.name)?;
        Ok(CheckFault {
            rule: self.rule,
            file,
            line: self.line,
            name,
        })
    }
}
