ghost use Rattle.std.specs.Prelude.{◌≡◌, ◌≢◌, List, OnOk, ◌∷◌, IfOk};
ghost use Rattle.qapi_tree.specs.Faults.{memory_fault, syntax_fault};
ghost use Rattle.qapi_tree.specs.Reading.{Steps, whole};
ghost use Rattle.qapi_tree.specs.Stacks.{begun, takes_value as of_value, takes_object as of_object, takes_key as of_key, given, given_object, after_value as next_after, ends_list as list_end, ends_object as object_end, after_comma as comma_then};
ghost use Rattle.qapi_tree.specs.Steps.{step, value_step, open_list, open_object, key_step, close_list, close_object, colon_step, comma_step, mark_step, string_step};

use crate::fault::{TreeFault, TreeRule};
use crate::named_members::{NamedMembers, make_place};
use crate::release::release;
use crate::stack::{Expect, Open};
use crate::tree::{Expr, Tree, TreeList, TreeMember};
use qapi_lex::{Token, TokenKind};
use qm_base::{NoMemory, Text};
use sqlite_items::Items;
use std::alloc::Global;
use std::marker::Model;
use std::mem;

/// Reads expressions from tokens that come one by one.
#[derive(Drop)]
pub struct Parser {
    alloc: Global,
    current: Open,
    outer: Items<Open>,
    expect: Expect,
}

impl Model for Parser {
    ghost use Rattle.std.specs.Prelude.{reverse, ◌∷◌};
    ghost use Rattle.qapi_tree.specs.Stacks.{State};
    ghost use Rattle.qapi_tree.specs.contracts.tree.Tree as tree;
    ghost use Rattle.qapi_tree.specs.contracts.tree.TreeMember as member;
    ghost use Rattle.std.specs.Coded.{codes};

    ghost Value = { State };

    ghost coded = { Prim.hlevel (codes, tree.the_row.coded, member.the_row.coded) };

    ghost view = { λ p. record { stack = p.current ∷ reverse p.outer; expect = p.expect } };
}

fn takes_value(expect: Expect) -> bool
    ensures { result ≡ of_value expect }
{
    matches!(expect, Expect::Value | Expect::ValueOrEnd)
}

fn takes_object(expect: Expect) -> bool
    ensures { result ≡ of_object expect }
{
    matches!(expect, Expect::Object | Expect::Value | Expect::ValueOrEnd)
}

fn takes_key(expect: Expect) -> bool
    ensures { result ≡ of_key expect }
{
    matches!(expect, Expect::Key | Expect::KeyOrEnd)
}

fn ends_list(expect: Expect) -> bool
    ensures { result ≡ list_end expect }
{
    matches!(expect, Expect::ValueOrEnd | Expect::CommaOrEnd)
}

fn ends_object(expect: Expect) -> bool
    ensures { result ≡ object_end expect }
{
    matches!(expect, Expect::KeyOrEnd | Expect::CommaOrEnd)
}

fn after_value(top: &Open) -> Expect
    ensures { result ≡ next_after top.now }
{
    match top {
        Open::File(_) => Expect::Object,
        Open::List(_) | Open::Dict(_, _, _) => Expect::CommaOrEnd,
    }
}

fn after_comma(top: &Open) -> Expect
    ensures { (outer : List Open) → result ≡ comma_then (top.now ∷ outer) }
{
    match top {
        Open::Dict(_, _, _) => Expect::Key,
        Open::File(_) | Open::List(_) => Expect::Value,
    }
}

/// Puts a value into what it stands in.
fn give(alloc: Global, top: &mut Open, value: Tree) -> Result<(), NoMemory>
    ensures { OnOk result (top.new ≡ given top.old value) }
{
    match top {
        Open::File(_) => Ok(()),
        Open::List(items) => {
            items.push(value)?;
            Ok(())
        }
        Open::Dict(members, key, _) => {
            let key = mem::replace(key, Text::new(alloc));
            members.push(alloc, key, value)
        }
    }
}

/// Puts an object whose `{` stands in this line into what it stands in.
fn give_object(
    alloc: Global,
    top: &mut Open,
    line: u32,
    keys: Items<TreeMember>,
) -> Result<(), NoMemory>
    ensures { OnOk result (top.new ≡ given_object top.old line keys) }
{
    match top {
        Open::File(exprs) => exprs.push(Expr { line, keys }),
        Open::List(_) | Open::Dict(_, _, _) => give(alloc, top, Tree::Dict(keys)),
    }
}

/// Takes the memory for one more value, so that a value is not let go for want of it once it is
/// whole and may nest deeply.
fn make_place_in(alloc: Global, top: &mut Open) -> Result<(), NoMemory>
    ensures { OnOk result (top.new ≡ top.old) }
{
    match top {
        Open::File(_) => Ok(()),
        Open::List(items) => make_place(items, Tree::Flag(false)),
        Open::Dict(members, _, _) => members.make_place(alloc),
    }
}

/// Lets go what is open, however deeply it nests.
fn release_open(open: Open) {
    match open {
        Open::File(_) => {}
        Open::List(items) => release(Tree::List(items)),
        Open::Dict(members, _, _) => release(Tree::Dict(members.into_items())),
    }
}

/// Lets go all that is open.
fn release_all(open: Items<Open>) {
    let mut open = open;
    for _ in 0..u64::MAX {
        match open.pop() {
            Some(last) => release_open(last),
            None => return,
        }
    }
}

impl Parser {
    /// No token was read. It takes no memory.
    pub fn new(alloc: Global) -> Parser
        ensures { result ≡ begun }
    {
        Parser {
            alloc,
            current: Open::File(TreeList::new(alloc)),
            outer: Items::new(alloc),
            expect: Expect::Object,
        }
    }

    fn syntax(&self, line: u32) -> TreeFault
        ensures { result ≡ syntax_fault line }
    {
        TreeFault::syntax(self.alloc, line)
    }

    fn memory(&self) -> TreeFault
        ensures { result ≡ memory_fault }
    {
        TreeFault::memory(self.alloc)
    }

    fn value(&mut self, value: Tree, line: u32) -> Result<(), TreeFault>
        ensures { Steps (value_step self.old value line) result self.new }
    {
        if !takes_value(self.expect) {
            return Err(self.syntax(line));
        }
        self.expect = after_value(&self.current);
        give(self.alloc, &mut self.current, value).map_err(|_error| self.memory())
    }

    /// Opens what is innermost from then on.
    fn open(&mut self, top: Open, next: Expect) -> Result<(), NoMemory>
        ensures { OnOk result (self.new ≡ record { stack = top ∷ self.old.stack; expect = next }) }
    {
        make_place_in(self.alloc, &mut self.current)?;
        make_place(&mut self.outer, Open::List(Items::new(self.alloc)))?;
        let outer = mem::replace(&mut self.current, top);
        self.outer.push(outer)?;
        self.expect = next;
        Ok(())
    }

    fn open_list(&mut self, line: u32) -> Result<(), TreeFault>
        ensures { Steps (open_list self.old line) result self.new }
    {
        if !takes_value(self.expect) {
            return Err(self.syntax(line));
        }
        let top = Open::List(Items::new(self.alloc));
        self.open(top, Expect::ValueOrEnd)
            .map_err(|_error| self.memory())
    }

    fn open_object(&mut self, line: u32) -> Result<(), TreeFault>
        ensures { Steps (open_object self.old line) result self.new }
    {
        if !takes_object(self.expect) {
            return Err(self.syntax(line));
        }
        let top = Open::Dict(NamedMembers::new(self.alloc), Text::new(self.alloc), line);
        self.open(top, Expect::KeyOrEnd)
            .map_err(|_error| self.memory())
    }

    fn key(&mut self, key: Text, line: u32) -> Result<(), TreeFault>
        ensures { Steps (key_step self.old.stack key line) result self.new }
    {
        match &mut self.current {
            Open::Dict(members, old, _) => {
                if members.has(key.as_slice()) {
                    return Err(TreeFault {
                        rule: TreeRule::DuplicateKey,
                        line,
                        name: key,
                    });
                }
                *old = key;
                self.expect = Expect::Colon;
                Ok(())
            }
            Open::File(_) | Open::List(_) => Err(TreeFault::syntax(self.alloc, line)),
        }
    }

    fn close_list(&mut self, line: u32) -> Result<(), TreeFault>
        ensures { Steps (close_list self.old.stack line) result self.new }
    {
        let Some(outer) = self.outer.pop() else {
            return Err(self.syntax(line));
        };
        self.expect = after_value(&outer);
        match mem::replace(&mut self.current, outer) {
            Open::List(items) => {
                give(self.alloc, &mut self.current, Tree::List(items)).map_err(
                    |_error| self.memory(),
                )
            }
            open => {
                release_open(open);
                Err(self.syntax(line))
            }
        }
    }

    fn close_object(&mut self, line: u32) -> Result<(), TreeFault>
        ensures { Steps (close_object self.old.stack line) result self.new }
    {
        let Some(outer) = self.outer.pop() else {
            return Err(self.syntax(line));
        };
        self.expect = after_value(&outer);
        match mem::replace(&mut self.current, outer) {
            Open::Dict(keys, _, begun) => {
                give_object(self.alloc, &mut self.current, begun, keys.into_items()).map_err(
                    |_error| self.memory(),
                )
            }
            open => {
                release_open(open);
                Err(self.syntax(line))
            }
        }
    }

    fn colon(&mut self, line: u32) -> Result<(), TreeFault>
        ensures { Steps (colon_step self.old.expect self.old.stack line) result self.new }
    {
        if self.expect == Expect::Colon {
            self.expect = Expect::Value;
            Ok(())
        } else {
            Err(self.syntax(line))
        }
    }

    fn comma(&mut self, line: u32) -> Result<(), TreeFault>
        ensures { Steps (comma_step self.old.expect self.old.stack line) result self.new }
    {
        if self.expect == Expect::CommaOrEnd {
            self.expect = after_comma(&self.current);
            Ok(())
        } else {
            Err(self.syntax(line))
        }
    }

    fn mark(&mut self, byte: u8, line: u32) -> Result<(), TreeFault>
        ensures { Steps (mark_step self.old byte line) result self.new }
    {
        if byte == b'{' {
            self.open_object(line)
        } else if byte == b'}' {
            if ends_object(self.expect) {
                self.close_object(line)
            } else {
                Err(self.syntax(line))
            }
        } else if byte == b'[' {
            self.open_list(line)
        } else if byte == b']' {
            if ends_list(self.expect) {
                self.close_list(line)
            } else {
                Err(self.syntax(line))
            }
        } else if byte == b':' {
            self.colon(line)
        } else if byte == b',' {
            self.comma(line)
        } else {
            Err(self.syntax(line))
        }
    }

    fn string(&mut self, text: Text, line: u32) -> Result<(), TreeFault>
        ensures { Steps (string_step self.old text line) result self.new }
    {
        if takes_key(self.expect) {
            self.key(text, line)
        } else {
            self.value(Tree::Str(text), line)
        }
    }

    /// Takes the next token.
    pub fn push(&mut self, token: &Token) -> Result<(), TreeFault>
        ensures { Steps (step self.old token.now) result self.new }
    {
        match &token.kind {
            TokenKind::Mark(byte) => self.mark(*byte, token.line),
            TokenKind::Flag(b) => self.value(Tree::Flag(*b), token.line),
            TokenKind::Str(text) => {
                let text = text.copy(self.alloc).map_err(|_error| self.memory())?;
                self.string(text, token.line)
            }
        }
    }

    /// The expressions, if nothing is open but the file; the line is that of the last token.
    pub fn finish(self, line: u32) -> Result<TreeList, TreeFault>
        ensures { result ≡ whole self.stack line }
    {
        let Parser {
            alloc,
            current,
            outer,
            expect: _,
        } = self;
        match current {
            Open::File(exprs) => Ok(exprs),
            open => {
                release_open(open);
                release_all(outer);
                Err(TreeFault::syntax(alloc, line))
            }
        }
    }

    /// Lets go what was read.
    pub fn release(self) {
        let Parser {
            alloc: _,
            current,
            outer,
            expect: _,
        } = self;
        release_open(current);
        release_all(outer);
    }
}
