ghost use Rattle.std.specs.Prelude.{◌≡◌, ◌≢◌, ◌&&◌, not, Some, IfOk};
ghost use Rattle.std.specs.Option.{option_copied, is_none};
ghost use Rattle.qapi_tree.specs.Faults.{fault, memory_fault};
ghost use Rattle.qapi_tree.specs.Asking.{member_fits};
ghost use Rattle.qapi_tree.specs.Judging.{form_of as only_form_of, first_unknown as unknown, first_missing as missing, first_wrong as wrong, fault_in, fault_of, first_fault};
ghost use Rattle.qapi_tree.specs.Spelling.{has_key as has_key_of};
ghost use Rattle.qapi_tree.specs.Shapes.{key_in, is_needed, rule_for as rule_of_key};
ghost use Rattle.qapi_tree.specs.Table.{name};

use crate::fault::{TreeFault, TreeRule};
use crate::shapes::{has_key, is_of_shape, rule_for};
use crate::table::{Form, KeyRule, all_kinds, keys_of, name_of};
use crate::tree::{Expr, TreeMember};
use qm_base::{NoMemory, Text};
use std::alloc::Global;

/// The form of an expression of exactly one kind.
#[tactic(auto, using(crate::proofs::FormLaws::settled_first, crate::proofs::FormLaws::settled_end))]
fn form_of(members: &[TreeMember]) -> Option<Form>
    ensures { result ≡ only_form_of members.now }
{
    let mut form = None;
    for kind in all_kinds() {
        if has_key(members, name_of(kind.0)) {
            if form.is_some() {
                return None;
            }
            form = Some(kind.1);
        }
    }
    form
}

fn is_unknown(form: Form, member: &TreeMember) -> bool
    ensures { result ≡ is_none (rule_of_key form member.now.key) }
{
    rule_for(form, member.key.as_slice()).is_none()
}

fn first_unknown(form: Form, members: &[TreeMember]) -> Option<&TreeMember>
    ensures { option_copied result ≡ unknown form members.now }
{
    members.iter().find(|member| is_unknown(form, member))
}

fn is_missing(rule: &KeyRule, members: &[TreeMember]) -> bool
    ensures { result ≡
        (is_needed rule.now && not (has_key_of members.now (name (key_in rule.now)))) }
{
    rule.is_needed() && !has_key(members, name_of(rule.key()))
}

fn first_missing(form: Form, members: &[TreeMember]) -> Option<&'static KeyRule>
    ensures { option_copied result ≡ missing form members.now }
{
    keys_of(form).iter().find(|rule| is_missing(rule, members))
}

fn fits(alloc: Global, form: Form, member: &TreeMember) -> Result<bool, NoMemory>
    ensures { IfOk result (λ answer. answer ≡ member_fits form member.now) }
{
    match rule_for(form, member.key.as_slice()) {
        Some(rule) => is_of_shape(alloc, &member.tree, rule.shape()),
        None => Ok(false),
    }
}

fn first_wrong(
    alloc: Global,
    form: Form,
    members: &[TreeMember],
) -> Result<Option<&TreeMember>, NoMemory>
    ensures { IfOk result (λ member. option_copied member ≡ wrong form members.now) }
{
    for member in members {
        if !fits(alloc, form, member)? {
            return Ok(Some(member));
        }
    }
    Ok(None)
}

/// The fault of a rule; want of memory takes its place where the name cannot be copied.
fn told(alloc: Global, rule: TreeRule, line: u32, name: &[u8]) -> TreeFault
    ensures { result ≢ memory_fault → result ≡ fault rule line name.now }
{
    match Text::of(alloc, name) {
        Ok(name) => TreeFault { rule, line, name },
        Err(NoMemory) => TreeFault::memory(alloc),
    }
}

/// The first fault of an expression of a kind.
fn fault_of_form(alloc: Global, line: u32, members: &[TreeMember], form: Form) -> Option<TreeFault>
    ensures { result ≢ Some memory_fault → result ≡ fault_in line members.now (Some form) }
{
    if let Some(member) = first_unknown(form, members) {
        return Some(told(alloc, TreeRule::UnknownKey, line, member.key.as_slice()));
    }
    if let Some(rule) = first_missing(form, members) {
        return Some(told(alloc, TreeRule::MissingKey, line, name_of(rule.key())));
    }
    match first_wrong(alloc, form, members) {
        Ok(Some(member)) => Some(told(alloc, TreeRule::WrongShape, line, member.key.as_slice())),
        Ok(None) => None,
        Err(NoMemory) => Some(TreeFault::memory(alloc)),
    }
}

/// The first fault of an expression.
fn judge(alloc: Global, expr: &Expr) -> Option<TreeFault>
    ensures { result ≢ Some memory_fault → result ≡ fault_of expr.now }
{
    match form_of(expr.keys.as_slice()) {
        Some(form) => fault_of_form(alloc, expr.line, expr.keys.as_slice(), form),
        None => Some(TreeFault::syntax(alloc, expr.line)),
    }
}

/// The first fault of expressions in their order.
pub fn first_fault(alloc: Global, exprs: &[Expr]) -> Option<TreeFault>
    ensures { result ≢ Some memory_fault → result ≡ first_fault exprs.now }
{
    for expr in exprs {
        if let Some(fault) = judge(alloc, expr) {
            return Some(fault);
        }
    }
    None
}
