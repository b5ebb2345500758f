//! The integers that fields spell: an optional sign and digits, within 64 bits, and FOREVER at the
//! end of a period. What is spelled otherwise is none.
ghost use Rattle.std.specs.Prelude.{◌≡◌, ◌≤◌, ◌+◌, ◌*◌, ◌<◌, ◌^◌, Some, IfSome, true};
ghost use Rattle.std.specs.Char.{digit_value, is_ascii_digit};
ghost use Rattle.std.specs.Str.{is_utf8};
ghost use Rattle.std.specs.Str.Parse.{digits_value};
ghost use Rattle.tl_csv.specs.Numbers.{are_digits, integer_of};

/// The integer that a field spells: an optional `-` or `+` and one or more digits, within 64 bits.
#[tactic(auto, using(crate::proofs::NumberLemmas::integer_parsed))]
pub fn integer_of(field: &str) -> Option<i64>
    ensures { result ≡ integer_of field.now }
{
    field.parse::<i64>().ok()
}

// The number of which the digits of a number and one more are the digits. None where the byte is no
// digit.
fn with_digit(number: u64, byte: u8) -> Option<u64>
    requires { number < 10 ^ 18 }
    ensures { IfSome result (λ n. (is_ascii_digit byte ≡ true)
        × (n ≡ number * 10 + digit_value byte) × (n ≤ number * 10 + 9)) }
{
    if byte.is_ascii_digit() {
        return Some(number * 10 + (byte - b'0') as u64);
    }
    None
}

// The number that one or more digits spell. None where a byte is no digit, or there are more than
// 18 of them.
#[tactic(auto, using(crate::proofs::NumberLemmas::few_digits))]
fn plain_number(digits: &[u8]) -> Option<u64>
    ensures { IfSome result (λ n. (are_digits digits.now ≡ true)
        × (digits_value 10 digits.now ≡ n) × (n < 2 ^ 63)) }
{
    if digits.is_empty() || digits.len() > 18 {
        return None;
    }
    let mut number = 0;
    for byte in digits {
        number = with_digit(number, *byte)?;
    }
    Some(number)
}

/// The integer that a field spells, as above, by its digits alone, where it has no `+` and few
/// enough of them. Where it gives none, the field may spell one all the same.
#[tactic(auto, using(crate::proofs::NumberLemmas::plain_integers))]
pub fn plain_integer(field: &[u8]) -> Option<i64>
    ensures spelled { IfSome result (λ number. integer_of field.now ≡ Some number) }
    ensures text { IfSome result (λ number. is_utf8 field.now ≡ true) }
{
    let (first, digits) = field.split_first()?;
    if *first == b'-' {
        let number = plain_number(digits)?;
        return Some(-(number as i64));
    }
    let number = plain_number(field)?;
    Some(number as i64)
}
