ghost use Rattle.std.specs.Prelude.{◌≡◌};
ghost use Rattle.qapi_tree.specs.Faults.{memory_fault, syntax_fault};

use qm_base::Text;
use std::alloc::Global;

/// Which rule of a schema's text was broken.
#[derive(Clone, Copy, PartialEq, Eq, Debug, Drop)]
pub enum TreeRule {
    /// A token stands where it cannot stand, the text ends inside an object, or an expression is
    /// of no kind or of two.
    Syntax,
    /// The expression's kind has no such key.
    UnknownKey,
    /// The expression lacks this key, which its kind wants.
    MissingKey,
    /// An object has the key twice.
    DuplicateKey,
    /// The key's value is not of the shape that the kind wants.
    WrongShape,
    /// No memory was left.
    Memory,
}

/// The first fault of a schema's tokens: the rule, the line and the key. The name is empty at
/// `Syntax` and `Memory`, and the line is 0 at `Memory`.
#[derive(Debug, Drop)]
pub struct TreeFault {
    /// The rule.
    pub rule: TreeRule,
    /// The line.
    pub line: u32,
    /// The key.
    pub name: Text,
}

impl TreeFault {
    /// No memory was left.
    pub fn memory(alloc: Global) -> TreeFault
        ensures { result ≡ memory_fault }
    {
        TreeFault {
            rule: TreeRule::Memory,
            line: 0,
            name: Text::new(alloc),
        }
    }

    /// What stands in this line cannot stand there.
    pub fn syntax(alloc: Global, line: u32) -> TreeFault
        ensures { result ≡ syntax_fault line }
    {
        TreeFault {
            rule: TreeRule::Syntax,
            line,
            name: Text::new(alloc),
        }
    }
}
