//! Rows of an answer, `|` and a text, in which `^` stands for a line's end.

use crate::{lexing, loading, nesting, parsing, sealing};
use std::test::Fail;

/// What is asked about the text of a row.
#[derive(Clone, Copy)]
pub enum Asked {
    /// Its tokens, or the first fault.
    Tokens,
    /// How many expressions it has, or the first fault.
    Expressions,
    /// The same of a text that nests deeply.
    Nested,
    /// The sources of files, or the first fault.
    Sources,
    /// Whether a table makes a schema.
    Goodness,
}

fn answer(rt: &impl AllocGlobal, asked: Asked, text: &str) -> Result<String, Fail> {
    match asked {
        Asked::Tokens => lexing::answer(rt, text.as_bytes()),
        Asked::Expressions => parsing::answer(rt, text.as_bytes()),
        Asked::Nested => nesting::answer(rt, text),
        Asked::Sources => loading::answer(rt, text, 0),
        Asked::Goodness => sealing::answer(rt, text),
    }
}

fn is_answered(rt: &impl AllocGlobal, asked: Asked, row: &str) -> Result<bool, Fail> {
    let (wanted, text) = row.split_once("|").unwrap_or((row, ""));
    let text = text.replace(rt.alloc(), "^", "\n")?;
    let given = answer(rt, asked, text.as_str())?;
    Ok(given.as_str() == wanted)
}

/// The rows that have another answer.
pub fn other_answers(rt: &impl AllocGlobal, asked: Asked, rows: &str) -> Result<String, Fail> {
    let mut others = String::new(rt.alloc());
    for row in rows.lines() {
        if !is_answered(rt, asked, row)? {
            others.push_str(row)?;
            others.push_str("\n")?;
        }
    }
    Ok(others)
}
