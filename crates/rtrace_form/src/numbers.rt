// The numbers in fields: lengths and caps.
ghost use Rattle.std.specs.Prelude.{◌≡◌, ◌≤◌, IfSome};
ghost use Rattle.rclaim.specs.declared.TheConstants.{LENGTH_LIMIT};
ghost use Rattle.rset.specs.declared.TheConstants.{SEATS};
ghost use Rattle.rtrace_form.specs.Numbers.{length_told, cap_within, cap_told, number_told, digit_behind};

use rclaim::LENGTH_LIMIT;
use rset::SEATS;

/// The length in a field; None where it is not a number or is above the limit.
pub fn length_of(field: &[u8]) -> Option<u32>
    ensures value { result ≡ length_told field.now }
    ensures bound { IfSome result (λ len. len ≤ LENGTH_LIMIT) }
{
    let number = number_of(field)?;
    if number > u64::from(LENGTH_LIMIT) {
        return None;
    }
    Some(number as u32)
}

/// The cap in a field; None where it is not a number from 1 to [`SEATS`].
pub fn cap_of(field: &[u8]) -> Option<u8>
    ensures value { result ≡ cap_told field.now }
    ensures bounds { IfSome result (λ cap. (1 ≤ cap) × (cap ≤ SEATS)) }
{
    cap_within(number_of(field)?)
}

// The number as a cap; None where it is not one.
fn cap_within(number: u64) -> Option<u8>
    ensures value { result ≡ cap_within number }
    ensures bounds { IfSome result (λ cap. (1 ≤ cap) × (cap ≤ SEATS)) }
{
    if number == 0 || number > u64::from(SEATS) {
        None
    } else {
        Some(number as u8)
    }
}

/// The number in a field; None where it is not one.
pub fn number_of(field: &[u8]) -> Option<u64>
    ensures { result ≡ number_told field.now }
{
    if let [digit] = field {
        return with_digit(0, *digit);
    }
    if field.is_empty() || field.len() > 20 {
        return None;
    }
    let mut number = 0u64;
    for digit in field {
        number = with_digit(number, *digit)?;
    }
    Some(number)
}

// The number with one more digit at its end.
fn with_digit(number: u64, digit: u8) -> Option<u64>
    ensures { result ≡ digit_behind number digit }
{
    if !digit.is_ascii_digit() {
        return None;
    }
    let value = u64::from(digit - b'0');
    number.checked_mul(10)?.checked_add(value)
}
