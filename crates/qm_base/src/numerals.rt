ghost use Rattle.std.specs.Prelude.{◌≡◌, ◌<◌, ◌≤◌, IfSome, IfNone, ◌^◌, ◌*◌, ◌+◌, nat_lt, cond, true, Option, Some, None};
ghost use Rattle.std.specs.List.{list_all};
ghost use Rattle.std.specs.Char.{is_ascii_digit, digit_value};
ghost use Rattle.std.specs.Str.Parse.{digits_value};
ghost use Rattle.qm_base.specs.Numerals;

fn has_leading_zero(text: &[u8]) -> bool
    ensures { result ≡ Numerals.has_leading_zero text.now }
{
    text.len() > 1 && text[0] == b'0'
}

/// Whether each byte is one of `0` to `9`.
pub fn are_digits(text: &[u8]) -> bool
    ensures { result ≡ list_all is_ascii_digit text.now }
{
    text.iter().all(|byte| (*byte).is_ascii_digit())
}

fn is_numeral(text: &[u8]) -> bool
    ensures { result ≡ Numerals.is_numeral text.now }
{
    !text.is_empty() && !has_leading_zero(text) && are_digits(text)
}

fn longer(value: u64, digit: u8) -> Option<u64>
    requires { is_ascii_digit digit ≡ true }
    ensures grown { IfSome result (λ more. (more ≡ value * 10 + digit_value digit) × (more < 2 ^ 64)) }
    ensures full { IfNone result (2 ^ 64 ≤ value * 10 + digit_value digit) }
{
    value.checked_mul(10)?.checked_add((digit - b'0') as u64)
}

fn value(digits: &[u8]) -> Option<u64>
    requires { list_all is_ascii_digit digits.now ≡ true }
    ensures { result ≡ cond (nat_lt (digits_value 10 digits.now) (2 ^ 64)) (Some (digits_value 10 digits.now)) None }
{
    let mut value = 0u64;
    for digit in digits {
        match longer(value, *digit) {
            Some(more) => value = more,
            None => return None,
        }
    }
    Some(value)
}

/// The number that decimal digits write; None for any other text, for a leading zero before
/// another digit, and from 2^64 on.
pub fn number(text: &[u8]) -> Option<u64>
    ensures { result ≡ Numerals.number_of text.now }
{
    if is_numeral(text) { value(text) } else { None }
}
