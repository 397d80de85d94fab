use qm_base::{GrowingList, Text};

/// What a token is (QAPI code generation guide, "Schema syntax").
#[derive(Debug, Drop)]
pub enum TokenKind {
    /// One of the bytes `{ } [ ] : ,`.
    Mark(u8),
    /// The words `true` and `false`.
    Flag(bool),
    /// A string, as the bytes that it stands for.
    Str(Text),
}

/// A token, and where its first byte stands.
#[derive(Debug, Drop)]
pub struct Token {
    /// What it is.
    pub kind: TokenKind,
    /// Its line, counted from 1 as far as 32 bits count.
    pub line: u32,
    /// Its column in bytes, counted from 1 as far as 32 bits count.
    pub column: u32,
}

/// Tokens in the order of the text.
pub type TokenList = GrowingList<Token>;
