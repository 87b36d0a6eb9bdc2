//! The fields of a record, and what stands in them.
ghost use Rattle.std.specs.Prelude.{◌≡◌, ◌≤◌, map};
ghost use Rattle.std.specs.Str.{bytes_eq};
ghost use Rattle.workload_text.specs.Fields as spelled;
ghost use Rattle.workload_text.specs.declared.faults.RecordError.TheVariants as errors;

use crate::faults::{FaultKind, Flaw, RecordError};
use crate::numbers::{integer_within, number_within};

/// A flaw of a field, or of the whole record where the field is 0.
pub fn flaw(field_no: usize, kind: FaultKind) -> Flaw
    ensures { result ≡ spelled.flaw field_no kind }
{
    Flaw { field_no, kind }
}

/// A flaw as the error of its record.
pub fn flaw_error(field_no: usize, kind: FaultKind) -> RecordError
    ensures { result ≡ errors.Flawed (spelled.flaw field_no kind) }
{
    RecordError::Flawed(flaw(field_no, kind))
}

/// Field `number` of a record, counted from 1, and no bytes where the record ends before it.
pub fn field<'a>(fields: &[&'a [u8]], number: usize) -> &'a [u8]
    requires { 1 ≤ number }
    ensures { result.now ≡ spelled.field_at number (map (λ f. f.now) fields.now) }
{
    match fields.get(number - 1) {
        Some(field) => field,
        None => b"",
    }
}

/// Whether a field is this word.
pub fn is_word(field: &[u8], word: &str) -> bool
    ensures { result ≡ bytes_eq field.now word.now }
{
    field == word.as_bytes()
}

/// A number between two limits, which stands at this field of its record.
pub fn number_at(field_no: usize, field: &[u8], low: u32, high: u32) -> Result<u32, Flaw>
    ensures { result ≡ spelled.number_at field_no low high field.now }
{
    match number_within(field, low, high) {
        Ok(number) => Ok(number),
        Err(kind) => Err(flaw(field_no, kind)),
    }
}

/// A number with its sign between two limits, which stands at this field of its record.
pub fn integer_at(field_no: usize, field: &[u8], low: i64, high: i64) -> Result<i64, Flaw>
    ensures { result ≡ spelled.integer_at field_no low high field.now }
{
    match integer_within(field, low, high) {
        Ok(number) => Ok(number),
        Err(kind) => Err(flaw(field_no, kind)),
    }
}
