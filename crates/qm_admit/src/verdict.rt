use crate::path::PathList;

/// Why a value does not fit a type.
#[derive(Clone, Copy, Debug, PartialEq, Eq)]
pub enum Fault {
    /// A mandatory member is absent.
    Missing,
    /// A member is none of the type's.
    Unexpected,
    /// The value is of another kind of JSON values.
    WrongKind,
    /// The number is out of its type's range.
    OutOfRange,
    /// The string is none of the enum's values.
    BadEnum,
    /// No alternative is of the value's kind.
    NoAlternative,
}

/// Whether a value fits.
#[derive(Debug, Drop)]
pub enum Verdict {
    /// It fits.
    Yes,
    /// It has this fault first, at the end of this way.
    No(Fault, PathList),
}
