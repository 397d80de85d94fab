ghost use Rattle.std.specs.Prelude.{◌≡◌, ◌≢◌, ◌↔◌, List, None, IfErr, Ok, Err};
ghost use Rattle.qapi_lex.specs.declared.token.Token.{Token};
ghost use Rattle.qapi_tree.specs.declared.tree.Expr.{Expr};
ghost use Rattle.qapi_tree.specs.declared.fault.TreeFault.{TreeFault};
ghost use Rattle.qapi_tree.specs.Spelling.{SpellsRow};
ghost use Rattle.qapi_tree.specs.Viable.{HasFault};
ghost use Rattle.qapi_tree.specs.Faults.{memory_fault};
ghost use Rattle.qapi_tree.specs.Judging.{expressions_of, first_fault};
ghost use Rattle.qapi_tree.specs.Reading.{objects_of};

use crate::fault::{TreeFault, TreeRule};
use crate::judging::first_fault;
use crate::parser::Parser;
use crate::tree::TreeList;
use qapi_lex::TokenList;
use std::alloc::Global;

/// The objects that a row of tokens holds.
#[tactic(auto, unfolding(crate::specs::Reading::objects_of))]
fn objects(alloc: Global, tokens: &TokenList) -> Result<TreeList, TreeFault>
    ensures { result ≢ Err memory_fault → result ≡ objects_of tokens.now }
{
    let mut parser = Parser::new(alloc);
    let mut line = 0;
    for token in tokens.as_slice() {
        line = token.line;
        if let Err(fault) = parser.push(token) {
            parser.release();
            return Err(fault);
        }
    }
    parser.finish(line)
}

/// The expressions of a schema's tokens, or their first fault (QAPI code generation guide, "Schema
/// syntax"). First all tokens are looked at from the left, and then the expressions in their order.
///
/// - `Syntax`, of tokens: this one cannot stand there, or the text ends inside an object; the line
///   is the token's, at the end that of the last token.
/// - `DuplicateKey`: the object has the key already; the line is that of the second.
/// - `Syntax`, of an expression: it has the key of no kind, or of two.
/// - `UnknownKey`: the first key that its kind does not have.
/// - `MissingKey`: the first key that its kind wants and that it lacks.
/// - `WrongShape`: the first key whose value is not of the shape that its kind wants.
/// - `Memory`: no memory was left.
///
/// The last four, but for `Memory`, have the line of the expression's `{`.
#[tactic(auto, unfolding(crate::specs::Judging::expressions_of))]
pub fn parse(alloc: Global, tokens: &TokenList) -> Result<TreeList, TreeFault>
    ensures { result ≢ Err memory_fault → result ≡ expressions_of tokens.now }
{
    let exprs = objects(alloc, tokens)?;
    match first_fault(alloc, exprs.as_slice()) {
        Some(fault) => Err(fault),
        None => Ok(exprs),
    }
}

/// Tokens are read as expressions exactly where they spell them and none of these has a fault.
pub fn each_expression_is_spelled()
    ensures { (tokens : List Token) (exprs : List Expr) →
        (expressions_of tokens ≡ Ok exprs) ↔ (SpellsRow tokens exprs × (first_fault exprs ≡ None)) }
{}

/// Tokens are refused with a fault exactly where it is theirs. Where some tokens from the left begin
/// no row of objects any more, it is the first of these: `DuplicateKey` at a string that another
/// string may replace, and else `Syntax`. Where the tokens spell expressions, it is the first of
/// theirs.
pub fn each_fault_is_the_first()
    ensures { (tokens : List Token) (fault : TreeFault) →
        (expressions_of tokens ≡ Err fault) ↔ HasFault tokens fault }
{}

/// Want of memory is no fault of tokens.
pub fn memory_is_no_fault()
    ensures { (tokens : List Token) →
        IfErr (expressions_of tokens) (λ fault. fault.rule ≢ TreeRule.Memory) }
{}
