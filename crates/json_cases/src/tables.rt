//! Tables of cases.

use percent_encoding::percent_decode;
use std::process::Abort;
use std::test::Fail;

/// A row: a case and, after ` | `, what is told of it, both percent-encoded as in RFC 3986,
/// section 2.1.
#[derive(Drop)]
pub(crate) struct Row<'a> {
    /// The row as it stands.
    pub(crate) line: &'a str,
    /// The case.
    pub(crate) case: Vec<u8>,
    /// What is told of it.
    pub(crate) told: Vec<u8>,
}

fn decoded(rt: &impl AllocGlobal, part: &str) -> Result<Vec<u8>, Fail> {
    let mut bytes = Vec::new(rt.alloc());
    percent_decode(part.as_bytes()).append_to(&mut bytes)?;
    Ok(bytes)
}

/// The rows of a table.
pub(crate) fn rows<'a>(rt: &impl AllocGlobal, table: &'a str) -> Result<Vec<Row<'a>>, Fail> {
    let mut rows = Vec::new(rt.alloc());
    for line in table.lines() {
        let (case, told) = line.split_once(" | ").unwrap_or((line, ""));
        let case = decoded(rt, case)?;
        let told = decoded(rt, told)?;
        rows.push(Row { line, case, told })?;
    }
    Ok(rows)
}

/// Asserts that what was found of a row's case is what the row tells.
pub(crate) fn expect_told(rt: &impl Abort, row: &Row<'_>, found: &[u8]) {
    assert_eq!(rt; found, row.told.as_slice(), "{}", row.line);
}

/// Asserts that what was found is what is told.
pub(crate) fn expect(rt: &impl Abort, found: &[u8], told: &[u8]) {
    assert_eq!(rt; found, told);
}
