ghost use Rattle.std.specs.Prelude.{◌≡◌, ◌++◌, [], length, map};
ghost use Rattle.qm_base.specs.Prefixes.{Writes};
ghost use Rattle.qm_json.specs.Printing.{printed, printed_member, joined, placed, array_text, object_text, capped};

use crate::output::{Count, Growing, Output};
use crate::strings::write_quoted;
use crate::value::{Json, Member};
use itoa::Buffer;
use qm_base::{NoMemory, Text};

impl Json {
    /// Appends the value's text (RFC 8259): a space after each comma and colon, and in strings an
    /// escape for whatever is not printable ASCII. U+FFFD is printed for each part of a string
    /// that is not UTF-8. After want of memory, what is there begins what would be there.
    pub fn write_text(&self, out: &mut Text) -> Result<(), NoMemory>
        ensures { Writes out.old (printed self.now) result out.new }
    {
        let mut growing = Growing::new(out.take_all());
        write_value(self, &mut growing);
        growing.finish(out)
    }

    /// How many bytes the printed text has, or 2^64-1 where it has more.
    pub fn written_length(&self) -> u64
        ensures { result ≡ capped (length (printed self.now)) }
    {
        let mut count = Count::new();
        write_value(self, &mut count);
        count.count()
    }
}

#[cycle(write)]
fn write_value<O: Output>(value: &Json, out: &mut O)
    ensures { O.given out.new ≡ O.given out.old ++ printed value.now }
{
    match value {
        Json::Null => out.put(b"null"),
        Json::Bool(true) => out.put(b"true"),
        Json::Bool(false) => out.put(b"false"),
        Json::Int(n) => {
            let mut buffer = Buffer::new();
            out.put(buffer.format(*n).as_bytes());
        }
        Json::Num(text) => out.put(text.as_slice()),
        Json::Str(bytes) => write_quoted(bytes.as_slice(), out),
        Json::Arr(items) => write_array(items.as_slice(), out),
        Json::Obj(members) => write_object(members.as_slice(), out),
    }
}

/// What stands before an item: nothing before the first.
fn write_comma<O: Output>(later: bool, out: &mut O)
    ensures { O.given out.new ≡ O.given out.old ++ placed later [] }
{
    if later {
        out.put(b", ");
    }
}

#[cycle(write)]
fn write_items<O: Output>(items: &[Json], out: &mut O)
    ensures { O.given out.new ≡ O.given out.old ++ joined (map printed items.now) }
{
    for (i, item) in items.iter().enumerate() {
        write_comma(i > 0, out);
        write_value(item, out);
    }
}

#[cycle(write)]
fn write_array<O: Output>(items: &[Json], out: &mut O)
    ensures { O.given out.new ≡ O.given out.old ++ array_text (map printed items.now) }
{
    out.put(b"[");
    write_items(items, out);
    out.put(b"]");
}

#[cycle(write)]
fn write_member<O: Output>(member: &Member, out: &mut O)
    ensures { O.given out.new ≡ O.given out.old ++ printed_member member.now }
{
    write_quoted(member.name.as_slice(), out);
    out.put(b": ");
    write_value(&member.value, out);
}

#[cycle(write)]
fn write_members<O: Output>(members: &[Member], out: &mut O)
    ensures { O.given out.new ≡ O.given out.old ++ joined (map printed_member members.now) }
{
    for (i, member) in members.iter().enumerate() {
        write_comma(i > 0, out);
        write_member(member, out);
    }
}

#[cycle(write)]
fn write_object<O: Output>(members: &[Member], out: &mut O)
    ensures { O.given out.new ≡ O.given out.old ++ object_text (map printed_member members.now) }
{
    out.put(b"{");
    write_members(members, out);
    out.put(b"}");
}
