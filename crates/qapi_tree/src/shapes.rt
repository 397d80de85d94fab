ghost use Rattle.std.specs.Prelude.{◌≡◌, ◌+◌, ◌≤◌, ◌<◌, ◌&&◌, OnOk, IfOk};
ghost use Rattle.std.specs.Option.{option_copied};
ghost use Rattle.std.specs.Str.{bytes_eq};
ghost use Rattle.qapi_tree.specs.Shapes.{key_in, shape_in, is_needed as needed, rule_for as rule_of_key, takes_text as text_taken, takes_flag as flag_taken, has_shape};
ghost use Rattle.qapi_tree.specs.Asking.{are_shaped, items_have, values_have, has_needed_keys as needed_keys, member_fits, members_fit, list_fits, dict_fits, Asks, count_of, items_count, values_count, left_in};
ghost use Rattle.qapi_tree.specs.Spelling.{has_key as has_key_of};
ghost use Rattle.qapi_tree.specs.Table.{name};

use crate::table::{
    DictRule, Form, Key, KeyRule, ListRule, ScalarRule, Shape, keys_of, name_of, rule_of,
};
use crate::tree::{Tree, TreeMember};
use qm_base::NoMemory;
use std::alloc::Global;

/// A value that has to have a shape.
#[derive(Drop)]
pub struct Wanted<'a> {
    pub tree: &'a Tree,
    pub shape: Shape,
}

impl KeyRule {
    /// The key.
    pub fn key(self) -> Key
        ensures { result ≡ key_in self }
    {
        match self {
            KeyRule::Needed(key, _) | KeyRule::Optional(key, _) => key,
        }
    }

    /// The shape of its value.
    pub fn shape(self) -> Shape
        ensures { result ≡ shape_in self }
    {
        match self {
            KeyRule::Needed(_, shape) | KeyRule::Optional(_, shape) => shape,
        }
    }

    /// Whether the key has to be there.
    pub fn is_needed(self) -> bool
        ensures { result ≡ needed self }
    {
        matches!(self, KeyRule::Needed(_, _))
    }
}

/// Whether a member has the key.
pub fn has_key(members: &[TreeMember], key: &[u8]) -> bool
    ensures { result ≡ has_key_of members.now key.now }
{
    members.iter().any(|member| member.key.as_slice() == key)
}

fn is_rule_for(rule: &KeyRule, key: &[u8]) -> bool
    ensures { result ≡ bytes_eq (name (key_in rule.now)) key.now }
{
    name_of(rule.key()) == key
}

/// The rule of a form for a key.
pub fn rule_for(form: Form, key: &[u8]) -> Option<&'static KeyRule>
    ensures { option_copied result ≡ rule_of_key form key.now }
{
    keys_of(form).iter().find(|rule| is_rule_for(rule, key))
}

fn takes_text(rule: ScalarRule) -> bool
    ensures { result ≡ text_taken rule }
{
    matches!(rule, ScalarRule::Text)
}

fn takes_flag(rule: ScalarRule) -> bool
    ensures { result ≡ flag_taken rule }
{
    matches!(rule, ScalarRule::Flag)
}

#[tactic(auto, using(crate::proofs::CountLaws::pushed))]
fn ask<'a>(pending: &mut Vec<Wanted<'a>>, tree: &'a Tree, shape: Shape) -> Result<(), NoMemory>
    ensures shapes { OnOk result (are_shaped pending.new.items
        ≡ (has_shape tree.now shape && are_shaped pending.old.items)) }
    ensures left { OnOk result (left_in pending.new.items ≡ left_in pending.old.items + count_of tree.now) }
{
    pending.push(Wanted { tree, shape })?;
    Ok(())
}

/// Asks for a shape of each item.
#[tactic(auto, using(crate::proofs::CountLaws::count_next))]
fn ask_items<'a>(
    pending: &mut Vec<Wanted<'a>>,
    items: &'a [Tree],
    shape: Shape,
) -> Result<(), NoMemory>
    ensures shapes { OnOk result (are_shaped pending.new.items
        ≡ (items_have shape items.now && are_shaped pending.old.items)) }
    ensures left { OnOk result (left_in pending.new.items ≡ left_in pending.old.items + items_count items.now) }
{
    for item in items {
        ask(pending, item, shape)?;
    }
    Ok(())
}

/// Asks for a shape of each value.
#[tactic(auto, using(crate::proofs::CountLaws::count_next))]
fn ask_values<'a>(
    pending: &mut Vec<Wanted<'a>>,
    members: &'a [TreeMember],
    shape: Shape,
) -> Result<(), NoMemory>
    ensures shapes { OnOk result (are_shaped pending.new.items
        ≡ (values_have shape members.now && are_shaped pending.old.items)) }
    ensures left { OnOk result (left_in pending.new.items ≡ left_in pending.old.items + values_count members.now) }
{
    for member in members {
        ask(pending, &member.tree, shape)?;
    }
    Ok(())
}

/// Asks for the shape that a form wants of a member's value; false if the form has no such key.
fn ask_member<'a>(
    pending: &mut Vec<Wanted<'a>>,
    form: Form,
    member: &'a TreeMember,
) -> Result<bool, NoMemory>
    ensures shapes { IfOk result (λ answer. Asks answer (are_shaped pending.new.items)
        (member_fits form member.now) (are_shaped pending.old.items)) }
    ensures left { IfOk result (λ _. left_in pending.new.items ≤ left_in pending.old.items + count_of member.now.tree) }
{
    let Some(rule) = rule_for(form, member.key.as_slice()) else {
        return Ok(false);
    };
    ask(pending, &member.tree, rule.shape())?;
    Ok(true)
}

/// Asks for the shapes that a form wants of its keys; false if it has no key of some member.
fn ask_members<'a>(
    pending: &mut Vec<Wanted<'a>>,
    form: Form,
    members: &'a [TreeMember],
) -> Result<bool, NoMemory>
    ensures shapes { IfOk result (λ answer. Asks answer (are_shaped pending.new.items)
        (members_fit form members.now) (are_shaped pending.old.items)) }
    ensures left { IfOk result (λ _. left_in pending.new.items ≤ left_in pending.old.items + values_count members.now) }
{
    for member in members {
        if !ask_member(pending, form, member)? {
            return Ok(false);
        }
    }
    Ok(true)
}

fn is_there(rule: &KeyRule, members: &[TreeMember]) -> bool
    ensures { result ≡ has_key_of members.now (name (key_in rule.now)) }
{
    has_key(members, name_of(rule.key()))
}

/// Whether the members have each key that the form wants.
fn has_needed_keys(form: Form, members: &[TreeMember]) -> bool
    ensures { result ≡ needed_keys form members.now }
{
    keys_of(form)
        .iter()
        .all(|rule| !rule.is_needed() || is_there(rule, members))
}

fn ask_list<'a>(
    pending: &mut Vec<Wanted<'a>>,
    rule: ListRule,
    items: &'a [Tree],
) -> Result<bool, NoMemory>
    ensures shapes { IfOk result (λ answer. Asks answer (are_shaped pending.new.items)
        (list_fits rule items.now) (are_shaped pending.old.items)) }
    ensures left { IfOk result (λ _. left_in pending.new.items ≤ left_in pending.old.items + items_count items.now) }
{
    let shape = match rule {
        ListRule::One(shape) if items.len() == 1 => shape,
        ListRule::Each(shape) => shape,
        ListRule::Never | ListRule::One(_) => return Ok(false),
    };
    ask_items(pending, items, shape)?;
    Ok(true)
}

fn ask_dict<'a>(
    pending: &mut Vec<Wanted<'a>>,
    rule: DictRule,
    members: &'a [TreeMember],
) -> Result<bool, NoMemory>
    ensures shapes { IfOk result (λ answer. Asks answer (are_shaped pending.new.items)
        (dict_fits rule members.now) (are_shaped pending.old.items)) }
    ensures left { IfOk result (λ _. left_in pending.new.items ≤ left_in pending.old.items + values_count members.now) }
{
    match rule {
        DictRule::Never => Ok(false),
        DictRule::Any => Ok(true),
        DictRule::Each(shape) => {
            ask_values(pending, members, shape)?;
            Ok(true)
        }
        DictRule::Of(form) => {
            Ok(has_needed_keys(form, members) && ask_members(pending, form, members)?)
        }
        DictRule::OneOf(form) => Ok(members.len() == 1 && ask_members(pending, form, members)?),
    }
}

/// Asks for the shapes of the values inside; false if the value has not the shape whatever they
/// are.
#[tactic(auto, using(crate::proofs::CountLaws::count_flag, crate::proofs::CountLaws::count_str))]
fn ask_inside<'a>(pending: &mut Vec<Wanted<'a>>, wanted: Wanted<'a>) -> Result<bool, NoMemory>
    ensures shapes { IfOk result (λ answer. Asks answer (are_shaped pending.new.items)
        (has_shape wanted.entry.tree.now wanted.entry.shape) (are_shaped pending.old.items)) }
    ensures left { IfOk result (λ _. left_in pending.new.items < left_in pending.old.items + count_of wanted.entry.tree.now) }
{
    let Wanted { tree, shape } = wanted;
    let rule = rule_of(shape);
    match tree {
        Tree::Flag(_) => Ok(takes_flag(rule.scalar)),
        Tree::Str(_) => Ok(takes_text(rule.scalar)),
        Tree::List(items) => ask_list(pending, rule.list, items.as_slice()),
        Tree::Dict(members) => ask_dict(pending, rule.dict, members.as_slice()),
    }
}

/// Whether the value has the shape. A list of the values that are still to be looked at stands in
/// place of recursion, since conditions nest without bound.
#[tactic(auto, using(crate::proofs::CountLaws::pushed))]
pub fn is_of_shape(alloc: Global, tree: &Tree, shape: Shape) -> Result<bool, NoMemory>
    ensures { IfOk result (λ answer. answer ≡ has_shape tree.now shape) }
{
    let mut pending = Vec::new(alloc);
    ask(&mut pending, tree, shape)?;
    'turn: while let Some(wanted) = pending.pop() {
        if !ask_inside(&mut pending, wanted)? {
            return Ok(false);
        }
    }
    Ok(true)
}
