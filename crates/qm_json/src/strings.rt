ghost use Rattle.std.specs.Prelude.{◌≡◌, ◌∷◌, [], ◌++◌, ◌<◌, ◌^◌, chars, flat_map, cond, unwrap_or};
ghost use Rattle.std.specs.List.{list_all};
ghost use Rattle.qm_json.specs.Strings;
ghost use Rattle.qm_json.specs.Strings.{code_points, unit_escape, unicode_escape, plain_or_unicode, escaped, escapes, is_plain, chunk_escapes, quoted};

use crate::output::Output;

fn hex_digit(n: u16) -> u8
    requires { n < 16 }
    ensures { result ≡ Strings.hex_digit n }
{
    if n < 10 {
        n as u8 + b'0'
    } else {
        n as u8 - 10 + b'A'
    }
}

fn write_unit<O: Output>(unit: u16, out: &mut O)
    ensures { O.given out.new ≡ O.given out.old ++ unit_escape unit }
{
    out.put(&[
        b'\\',
        b'u',
        hex_digit(unit / 4096),
        hex_digit(unit / 256 % 16),
        hex_digit(unit / 16 % 16),
        hex_digit(unit % 16),
    ]);
}

fn write_units<O: Output>(units: &[u16], out: &mut O)
    ensures { O.given out.new ≡ O.given out.old ++ flat_map unit_escape units.now }
{
    for unit in units {
        write_unit(*unit, out);
    }
}

fn write_unicode<O: Output>(c: char, out: &mut O)
    ensures { O.given out.new ≡ O.given out.old ++ unicode_escape c }
{
    let mut buffer = [0u16; 2];
    write_units(c.encode_utf16(&mut buffer), out);
}

fn short_escape(c: char) -> Option<[u8; 2]>
    ensures { unwrap_or result (plain_or_unicode c) ≡ escaped c }
{
    match c {
        '"' => Some(*b"\\\""),
        '\\' => Some(*b"\\\\"),
        '\u{8}' => Some(*b"\\b"),
        '\u{C}' => Some(*b"\\f"),
        '\n' => Some(*b"\\n"),
        '\r' => Some(*b"\\r"),
        '\t' => Some(*b"\\t"),
        _ => None,
    }
}

fn write_char<O: Output>(c: char, out: &mut O)
    ensures { O.given out.new ≡ O.given out.old ++ escaped c }
{
    match short_escape(c) {
        Some(escape) => out.put(&escape),
        None => {
            if c < ' ' || c >= '\u{7F}' {
                write_unicode(c, out);
            } else {
                out.put(&[c as u8]);
            }
        }
    }
}

fn write_chars<O: Output>(text: &str, out: &mut O)
    ensures { O.given out.new ≡ O.given out.old ++ escapes (chars text.now) }
{
    for c in text.chars() {
        write_char(c, out);
    }
}

fn write_chunk<O: Output>(text: &str, faulty: bool, out: &mut O)
    ensures { O.given out.new ≡ O.given out.old ++ chunk_escapes text.now faulty }
{
    write_chars(text, out);
    if faulty {
        write_unicode('\u{FFFD}', out);
    }
}

fn write_chunks<O: Output>(bytes: &[u8], out: &mut O)
    ensures { O.given out.new ≡ O.given out.old ++ escapes (code_points bytes.now) }
{
    for chunk in bytes.utf8_chunks() {
        write_chunk(chunk.valid(), !chunk.invalid().is_empty(), out);
    }
}

fn are_plain(bytes: &[u8]) -> bool
    ensures { result ≡ list_all is_plain bytes.now }
{
    bytes.iter().all(|byte| { *byte >= b' ' && *byte < 0x7F && *byte != b'"' && *byte != b'\\' })
}

fn write_escaped<O: Output>(bytes: &[u8], out: &mut O)
    ensures { O.given out.new ≡ O.given out.old ++ escapes (code_points bytes.now) }
{
    if are_plain(bytes) {
        out.put(bytes);
    } else {
        write_chunks(bytes, out);
    }
}

/// Puts a string in its quotes.
pub(crate) fn write_quoted<O: Output>(bytes: &[u8], out: &mut O)
    ensures { O.given out.new ≡ O.given out.old ++ quoted bytes.now }
{
    out.put(b"\"");
    write_escaped(bytes, out);
    out.put(b"\"");
}
