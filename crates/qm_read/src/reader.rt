ghost use Rattle.std.specs.Prelude.{◌≡◌, List, OnOk, ◌∷◌, IfOk};
ghost use Rattle.qm_read.specs.Faults.{whole};
ghost use Rattle.qm_read.specs.Progress.{Steps};
ghost use Rattle.qm_read.specs.Stacks as stacks;
ghost use Rattle.qm_read.specs.Stacks.{begun};
ghost use Rattle.qm_read.specs.Steps as steps;
ghost use Rattle.qm_read.specs.Steps.{step};

use crate::JsonFault;
use crate::named_members::NamedMembers;
use crate::stack::{Expect, Open};
use crate::token::Token;
use qm_base::{NoMemory, Text};
use qm_json::Json;
use sqlite_items::Items;
use std::alloc::Global;
use std::marker::Model;
use std::mem;

/// Reads a value from tokens that come one by one.
#[derive(Drop)]
pub struct Reader {
    alloc: Global,
    current: Open,
    outer: Items<Open>,
    expect: Expect,
}

impl Model for Reader {
    ghost use Rattle.std.specs.Prelude.{reverse, ◌∷◌};
    ghost use Rattle.qm_read.specs.Stacks.{State};
    ghost use Rattle.qm_json.specs.contracts.value.Json as j;
    ghost use Rattle.qm_json.specs.contracts.value.Member as m;
    ghost use Rattle.std.specs.Coded.{codes};

    ghost Value = { State };

    ghost coded = { Prim.hlevel (codes, j.the_row.coded, m.the_row.coded) };

    ghost view = { λ r. record { stack = r.current ∷ reverse r.outer; expect = r.expect } };
}

fn takes_value(expect: Expect) -> bool
    ensures { result ≡ stacks.takes_value expect }
{
    matches!(expect, Expect::Value | Expect::ValueOrEnd)
}

fn takes_name(expect: Expect) -> bool
    ensures { result ≡ stacks.takes_name expect }
{
    matches!(expect, Expect::Name | Expect::NameOrEnd)
}

fn after_value(top: &Open) -> Expect
    ensures { result ≡ stacks.after_value top.now }
{
    match top {
        Open::Top | Open::Whole(_) => Expect::End,
        Open::Arr(_) | Open::Obj(_, _) => Expect::CommaOrEnd,
    }
}

/// Puts a value into what it stands in.
fn give(alloc: Global, top: &mut Open, value: Json) -> Result<(), NoMemory>
    ensures { OnOk result (top.new ≡ stacks.given top.old value) }
{
    match top {
        Open::Arr(items) => Ok(items.push(value)?),
        Open::Obj(members, name) => {
            let name = mem::replace(name, Text::new(alloc));
            members.push(alloc, name, value)
        }
        Open::Top | Open::Whole(_) => {
            *top = Open::Whole(value);
            Ok(())
        }
    }
}

fn after_comma(top: &Open) -> Expect
    ensures { (outer : List Open) → result ≡ stacks.after_comma (top.now ∷ outer) }
{
    match top {
        Open::Obj(_, _) => Expect::Name,
        Open::Top | Open::Arr(_) | Open::Whole(_) => Expect::Value,
    }
}

fn ends_array(expect: Expect) -> bool
    ensures { result ≡ stacks.ends_array expect }
{
    matches!(expect, Expect::ValueOrEnd | Expect::CommaOrEnd)
}

fn ends_object(expect: Expect) -> bool
    ensures { result ≡ stacks.ends_object expect }
{
    matches!(expect, Expect::NameOrEnd | Expect::CommaOrEnd)
}

impl Reader {
    /// No token was read. It takes no memory.
    pub fn new(alloc: Global) -> Reader
        ensures { result ≡ begun }
    {
        Reader {
            alloc,
            current: Open::Top,
            outer: Items::new(alloc),
            expect: Expect::Value,
        }
    }

    fn value(&mut self, value: Json, place: u64) -> Result<(), JsonFault>
        ensures { Steps (steps.value_step self.old value place) result self.new }
    {
        if !takes_value(self.expect) {
            return Err(JsonFault::Expected(place));
        }
        self.expect = after_value(&self.current);
        give(self.alloc, &mut self.current, value)?;
        Ok(())
    }

    /// Puts a value that a closer ended into what was open before it.
    fn leave(&mut self, value: Json, place: u64) -> Result<(), JsonFault>
        ensures { Steps (stacks.left self.old.stack value place) result self.new }
    {
        let Some(outer) = self.outer.pop() else {
            return Err(JsonFault::Expected(place));
        };
        self.current = outer;
        self.expect = after_value(&self.current);
        give(self.alloc, &mut self.current, value)?;
        Ok(())
    }

    /// Opens a bracket, where fewer than so many are open.
    fn open(&mut self, limit: usize, top: Open, next: Expect, place: u64) -> Result<(), JsonFault>
        ensures { Steps (steps.open_step limit self.old top next place) result self.new }
    {
        if !takes_value(self.expect) || self.outer.len() >= limit {
            return Err(JsonFault::Expected(place));
        }
        let outer = mem::replace(&mut self.current, top);
        match self.outer.push(outer) {
            Ok(()) => {
                self.expect = next;
                Ok(())
            }
            Err(_) => Err(JsonFault::Memory),
        }
    }

    fn name(&mut self, text: Text, place: u64) -> Result<(), JsonFault>
        ensures { Steps (steps.name_step self.old.stack text place) result self.new }
    {
        match &mut self.current {
            Open::Obj(members, name) => {
                if members.has(text.as_slice()) {
                    return Err(JsonFault::Duplicate(place));
                }
                *name = text;
                self.expect = Expect::Colon;
                Ok(())
            }
            Open::Top | Open::Arr(_) | Open::Whole(_) => Err(JsonFault::Expected(place)),
        }
    }

    fn close_array(&mut self, place: u64) -> Result<(), JsonFault>
        ensures { Steps (steps.array_end_step self.old place) result self.new }
    {
        if !ends_array(self.expect) {
            return Err(JsonFault::Expected(place));
        }
        match mem::replace(&mut self.current, Open::Top) {
            Open::Arr(items) => self.leave(Json::Arr(items), place),
            Open::Top | Open::Obj(_, _) | Open::Whole(_) => Err(JsonFault::Expected(place)),
        }
    }

    fn close_object(&mut self, place: u64) -> Result<(), JsonFault>
        ensures { Steps (steps.object_end_step self.old place) result self.new }
    {
        if !ends_object(self.expect) {
            return Err(JsonFault::Expected(place));
        }
        match mem::replace(&mut self.current, Open::Top) {
            Open::Obj(members, _) => self.leave(Json::Obj(members.into_items()), place),
            Open::Top | Open::Arr(_) | Open::Whole(_) => Err(JsonFault::Expected(place)),
        }
    }

    fn comma(&mut self, place: u64) -> Result<(), JsonFault>
        ensures { Steps (steps.comma_step self.old.expect self.old.stack place) result self.new }
    {
        if !matches!(self.expect, Expect::CommaOrEnd) {
            return Err(JsonFault::Expected(place));
        }
        self.expect = after_comma(&self.current);
        Ok(())
    }

    fn colon(&mut self, place: u64) -> Result<(), JsonFault>
        ensures { Steps (steps.colon_step self.old.expect self.old.stack place) result self.new }
    {
        if !matches!(self.expect, Expect::Colon) {
            return Err(JsonFault::Expected(place));
        }
        self.expect = Expect::Value;
        Ok(())
    }

    /// Takes the next token, where so many brackets at most may be open at a time.
    pub fn push(&mut self, limit: usize, token: Token, place: u64) -> Result<(), JsonFault>
        ensures { Steps (step limit self.old token place) result self.new }
    {
        match token {
            Token::Null => self.value(Json::Null, place),
            Token::Bool(b) => self.value(Json::Bool(b), place),
            Token::Int(n) => self.value(Json::Int(n), place),
            Token::Num(text) => self.value(Json::Num(text), place),
            Token::Str(text) => {
                if takes_name(self.expect) {
                    self.name(text, place)
                } else {
                    self.value(Json::Str(text), place)
                }
            }
            Token::OpenArray => self.open(
                limit,
                Open::Arr(Items::new(self.alloc)),
                Expect::ValueOrEnd,
                place,
            ),
            Token::OpenObject => self.open(
                limit,
                Open::Obj(NamedMembers::new(self.alloc), Text::new(self.alloc)),
                Expect::NameOrEnd,
                place,
            ),
            Token::CloseArray => self.close_array(place),
            Token::CloseObject => self.close_object(place),
            Token::Comma => self.comma(place),
            Token::Colon => self.colon(place),
            Token::Bad(fault) => Err(fault),
        }
    }

    /// The value, if the tokens so far are those of one.
    pub fn finish(self, length: u64) -> Result<Json, JsonFault>
        ensures { result ≡ whole self.stack length }
    {
        let Reader { current, .. } = self;
        match current {
            Open::Whole(value) => Ok(value),
            Open::Top | Open::Arr(_) | Open::Obj(_, _) => Err(JsonFault::Expected(length)),
        }
    }
}
