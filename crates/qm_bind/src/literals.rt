ghost use Rattle.std.specs.Prelude.{◌≡◌, ◌≤◌, true, false, length, IfSome, IfNone};
ghost use Rattle.std.specs.Char.{is_ascii_digit};
ghost use Rattle.std.specs.List.{list_all, prefix_len};
ghost use Rattle.std.specs.Str.Parse.{signed_digits_value};
ghost use Rattle.qm_json.specs.Numbers as numbers;

fn digits_len(text: &[u8]) -> usize
    ensures value { result ≡ numbers.digits_len text.now }
    ensures within { result ≤ length text.now }
{
    let mut count = 0;
    while count < text.len() && text[count].is_ascii_digit() {
        count += 1;
    }
    count
}

fn are_digits(text: &[u8]) -> bool
    ensures { result ≡ list_all is_ascii_digit text.now }
{
    text.iter().all(|byte| (*byte).is_ascii_digit())
}

fn is_digits(text: &[u8]) -> bool
    ensures { result ≡ numbers.is_digits text.now }
{
    text.len() > 0 && are_digits(text)
}

fn is_whole_part(text: &[u8]) -> bool
    ensures { result ≡ numbers.is_whole_part text.now }
{
    match text {
        [] => false,
        [first, rest @ ..] => is_digits(text) && (*first > b'0' || rest.len() == 0),
    }
}

/// The text without a sign at its front.
fn after_sign(text: &[u8]) -> &[u8]
    ensures { result.now ≡ numbers.after_sign text.now }
{
    match text {
        [] => text,
        [first, rest @ ..] => {
            if *first == b'+' || *first == b'-' {
                rest
            } else {
                text
            }
        }
    }
}

/// Whether the text is empty or an exponent.
fn is_exponent(text: &[u8]) -> bool
    ensures { result ≡ numbers.is_exponent text.now }
{
    match text {
        [] => true,
        [first, rest @ ..] => (*first == b'e' || *first == b'E') && is_digits(after_sign(rest)),
    }
}

/// Whether the text is empty, a fraction, an exponent or both.
fn is_fraction(text: &[u8]) -> bool
    ensures { result ≡ numbers.is_fraction text.now }
{
    match text {
        [] => true,
        [first, rest @ ..] => {
            if *first == b'.' {
                let count = digits_len(rest);
                count > 0 && is_exponent(&rest[count..])
            } else {
                is_exponent(text)
            }
        }
    }
}

/// The text without a minus at its front.
fn after_minus(text: &[u8]) -> &[u8]
    ensures { result.now ≡ numbers.after_minus text.now }
{
    match text {
        [] => text,
        [first, rest @ ..] => { if *first == b'-' { rest } else { text } }
    }
}

fn is_unsigned_literal(text: &[u8]) -> bool
    ensures { result ≡ numbers.is_unsigned_literal text.now }
{
    let count = digits_len(text);
    is_whole_part(&text[..count]) && is_fraction(&text[count..])
}

/// Whether the text is the literal of a number (RFC 8259, section 6).
pub fn is_literal(text: &[u8]) -> bool
    ensures { result ≡ numbers.is_literal text.now }
{
    is_unsigned_literal(after_minus(text))
}

/// The number that a sign and digits write, which 128 bits hold.
fn parsed(text: &[u8]) -> Option<i128>
    requires { numbers.is_whole_part (numbers.after_minus text.now) ≡ true }
    ensures some { IfSome result (λ n. n ≡ signed_digits_value 10 text.now) }
    ensures none { IfNone result (numbers.is_in_whole_range (signed_digits_value 10 text.now) ≡ false) }
{
    match str::from_utf8(text) {
        Ok(text) => match text.parse::<i128>() {
            Ok(number) => Some(number),
            Err(_) => None,
        },
        Err(_) => None,
    }
}

/// Whether the number is in the range of whole numbers.
pub fn is_in_whole_range(number: i128) -> bool
    ensures { result ≡ numbers.is_in_whole_range number }
{
    -9_223_372_036_854_775_808 <= number && number < 18_446_744_073_709_551_616
}

/// Whether the text is a literal that is kept as a whole number.
pub fn is_whole_literal(text: &[u8]) -> bool
    ensures { result ≡ numbers.is_whole_literal text.now }
{
    if !is_whole_part(after_minus(text)) {
        return false;
    }
    match parsed(text) {
        Some(number) => is_in_whole_range(number),
        None => false,
    }
}
