ghost use Rattle.std.specs.Prelude.{◌≡◌, ◌<◌, length, IfSome};
ghost use Rattle.std.specs.List.{list_all};
ghost use Rattle.qapi_rules.specs.Names;

/// The name without the star that it may begin with, as optional members have one (QAPI code
/// generation guide, "Struct types").
#[tactic(auto, unfolding(crate::specs::Names::without_star))]
pub fn without_star(name: &[u8]) -> &[u8]
    ensures { result.now ≡ Names.without_star name.now }
{
    if name.starts_with(b"*") {
        &name[1..]
    } else {
        name
    }
}

fn is_name_byte(byte: u8) -> bool
    ensures { result ≡ Names.is_name_byte byte }
{
    byte.is_ascii_alphanumeric() || byte == b'-' || byte == b'_'
}

fn is_domain_byte(byte: u8) -> bool
    ensures { result ≡ Names.is_domain_byte byte }
{
    byte.is_ascii_alphanumeric() || byte == b'-' || byte == b'.'
}

fn may_begin(byte: u8, digit_first: bool) -> bool
    ensures { result ≡ Names.may_begin digit_first byte }
{
    byte.is_ascii_alphabetic() || digit_first && byte.is_ascii_digit()
}

fn are_name_bytes(text: &[u8]) -> bool
    ensures { result ≡ list_all Names.is_name_byte text.now }
{
    text.iter().all(|byte| is_name_byte(*byte))
}

fn are_domain_bytes(text: &[u8]) -> bool
    ensures { result ≡ list_all Names.is_domain_byte text.now }
{
    text.iter().all(|byte| is_domain_byte(*byte))
}

#[tactic(auto, unfolding(crate::specs::Names::is_plain))]
fn is_plain(text: &[u8], digit_first: bool) -> bool
    ensures { result ≡ Names.is_plain digit_first text.now }
{
    !text.is_empty() && may_begin(text[0], digit_first) && are_name_bytes(&text[1..])
}

#[tactic(auto, unfolding(crate::specs::Names::is_domain))]
fn is_domain(text: &[u8]) -> bool
    ensures { result ≡ Names.is_domain text.now }
{
    !text.is_empty() && are_domain_bytes(text)
}

#[tactic(auto, unfolding(crate::specs::Names::domain_end))]
fn domain_end(text: &[u8]) -> Option<usize>
    ensures place { result ≡ Names.domain_end text.now }
    ensures within { IfSome result (λ end. end < length text.now) }
{
    text.iter().position(|byte| *byte == b'_')
}

fn is_split_at(text: &[u8], digit_first: bool, end: Option<usize>) -> bool
    requires { IfSome end (λ end. end < length text.now) }
    ensures { result ≡ Names.is_split_at digit_first text.now end }
{
    match end {
        Some(end) => is_domain(&text[..end]) && is_plain(&text[end + 1..], digit_first),
        None => false,
    }
}

fn is_downstream(text: &[u8], digit_first: bool) -> bool
    ensures { result ≡ Names.is_split_at digit_first text.now (Names.domain_end text.now) }
{
    let end = domain_end(text);
    is_split_at(text, digit_first, end)
}

#[tactic(auto, unfolding(crate::specs::Names::is_formed))]
fn is_formed(text: &[u8], digit_first: bool) -> bool
    ensures { result ≡ Names.is_formed digit_first text.now }
{
    if text.starts_with(b"__") {
        is_downstream(&text[2..], digit_first)
    } else {
        is_plain(text, digit_first)
    }
}

/// Whether the text is a name: 1 to 256 bytes, of which `__`, a domain and `_` may come first, then a
/// letter, or a digit where `digit_first` says so, and then letters, digits, `-` and `_`; and it does
/// not begin with `q_` (QAPI code generation guide, "Naming rules and reserved names").
#[tactic(auto, unfolding(crate::specs::Names::is_name))]
pub fn is_name(text: &[u8], digit_first: bool) -> bool
    ensures { result ≡ Names.is_name digit_first text.now }
{
    text.len() <= 256 && !text.starts_with(b"q_") && is_formed(text, digit_first)
}
