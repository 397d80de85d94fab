use crate::JsonFault;
use qm_base::Text;

/// A token (RFC 8259, section 2), or what is wrong with it.
#[derive(Drop)]
pub enum Token {
    /// The literal `null`.
    Null,
    /// The literals `true` and `false`.
    Bool(bool),
    /// A whole number from -2^63 to 2^64-1.
    Int(i128),
    /// Any other number, as the text of its literal.
    Num(Text),
    /// A string, as the bytes that it stands for.
    Str(Text),
    /// `[`
    OpenArray,
    /// `]`
    CloseArray,
    /// `{`
    OpenObject,
    /// `}`
    CloseObject,
    /// `,`
    Comma,
    /// `:`
    Colon,
    /// What is no token.
    Bad(JsonFault),
}

/// What stands at the front of a text.
#[derive(Drop)]
pub struct Lexeme {
    /// Its token; none of white space.
    pub token: Option<Token>,
    /// How many bytes it takes after the first.
    pub more: usize,
}
