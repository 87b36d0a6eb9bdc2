//! Numbers in texts.
ghost use Rattle.std.specs.Prelude.{◌≡◌, ◌^◌, ◌<◌, ◌≤◌, drop, if◌then◌else◌, IfOk, SomeIff};
ghost use Rattle.std.specs.List.{list_all};
ghost use Rattle.workload_text.specs.Numbers as spelled;

use crate::faults::FaultKind;

fn is_digit(b: u8) -> bool
    ensures { result ≡ spelled.is_digit b }
{
    b.is_ascii_digit()
}

fn are_digits(field: &[u8]) -> bool
    ensures { result ≡ list_all spelled.is_digit field.now }
{
    field.iter().all(|b| is_digit(*b))
}

fn is_number(field: &[u8]) -> bool
    ensures { result ≡ spelled.is_number field.now }
{
    match field {
        [] => false,
        [b] => is_digit(*b),
        [b, ..] => *b != b'0' && are_digits(field),
    }
}

/// The number that the digits spell, if a `u64` holds it.
fn value(digits: &[u8]) -> Option<u64>
    ensures { SomeIff result (spelled.value_of digits.now < 2 ^ 64) (spelled.value_of digits.now) }
{
    let mut n = 0u64;
    for b in digits {
        n = n
            .checked_mul(10)?
            .checked_add(u64::from(b.saturating_sub(b'0')))?;
    }
    Some(n)
}

/// A number between two limits: ASCII digits without a leading zero, or `0`.
pub fn long_number_within(text: &[u8], low: u64, high: u64) -> Result<u64, FaultKind>
    ensures number { result ≡ spelled.number_in low high text.now }
    ensures within { IfOk result (λ n. n ≤ high) }
{
    if !is_number(text) {
        return Err(FaultKind::NotANumber);
    }
    match value(text) {
        Some(n) if low <= n && n <= high => Ok(n),
        _ => Err(FaultKind::OutOfRange),
    }
}

/// The same, where the limits are below 2^32.
pub fn number_within(text: &[u8], low: u32, high: u32) -> Result<u32, FaultKind>
    ensures number { result ≡ spelled.number_in low high text.now }
    ensures within { IfOk result (λ n. n ≤ high) }
{
    let n = long_number_within(text, u64::from(low), u64::from(high))?;
    Ok(n as u32)
}

fn has_sign(text: &[u8]) -> bool
    ensures { result ≡ spelled.has_sign text.now }
{
    matches!(text, [b'-', ..])
}

/// Whether a `-` stands before a number other than 0.
fn is_below_0(text: &[u8]) -> bool
    ensures { result ≡ spelled.is_below_0 text.now }
{
    match text {
        [b'-', digits @ ..] => is_number(digits) && digits != b"0".as_slice(),
        _ => false,
    }
}

/// Whether a field whose least number is `low` spells a number.
fn is_integer(low: i64, text: &[u8]) -> bool
    ensures { result ≡ spelled.is_integer low text.now }
{
    is_number(text) || (low < 0 && is_below_0(text))
}

/// The number that the digits behind the sign spell, if a `u64` holds what it is without its sign.
fn integer(text: &[u8]) -> Option<i128>
    ensures { SomeIff result (spelled.value_of (if spelled.has_sign text.now then drop 1 text.now else text.now) < 2 ^ 64) (spelled.integer_of text.now) }
{
    if has_sign(text) {
        Some(-i128::from(value(&text[1..])?))
    } else {
        Some(i128::from(value(text)?))
    }
}

/// A number with its sign between two limits: a sign may stand where the least is below 0, and before no 0.
pub fn integer_within(text: &[u8], low: i64, high: i64) -> Result<i64, FaultKind>
    ensures { result ≡ spelled.integer_in low high text.now }
{
    if !is_integer(low, text) {
        return Err(FaultKind::NotANumber);
    }
    match integer(text) {
        Some(n) if i128::from(low) <= n && n <= i128::from(high) => Ok(n as i64),
        _ => Err(FaultKind::OutOfRange),
    }
}
