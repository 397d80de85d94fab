use qm_base::Shared;
use qm_json::Json;

/// Why bytes are no message. This project's own rule.
#[derive(Clone, Copy, Debug, PartialEq, Eq)]
pub enum FrameWord {
    /// A byte that cannot stand in a message.
    LexError,
    /// A closing bracket outside a message.
    Unbalanced,
    /// Brackets nested deeper than 128.
    TooDeep,
    /// More than 1,048,576 bytes.
    TooLong,
}

/// Why a message is no JSON value, with the place of the byte.
#[derive(Clone, Copy, Debug, PartialEq, Eq)]
pub enum JsonWord {
    /// Something else is expected there.
    Expected(u64),
    /// A name that the object already has.
    Duplicate(u64),
    /// A backslash that begins no escape.
    BadEscape(u64),
    /// The first byte of an ill-formed sequence.
    BadUtf8(u64),
}

/// What came in place of a value.
#[derive(Clone, Copy, Debug, PartialEq, Eq)]
pub enum BadInput {
    /// Bytes that are no message.
    Frame(FrameWord),
    /// A message that is no value.
    Json(JsonWord),
}

/// What a client sent: a value, or what is wrong with it.
#[derive(Drop)]
pub enum Input {
    /// A value.
    Doc(Shared<Json>),
    /// No value.
    Bad(BadInput),
}
