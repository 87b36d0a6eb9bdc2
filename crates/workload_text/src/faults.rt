//! What can be wrong with a workload file.
ghost use Rattle.std.specs.Prelude.{◌≡◌, min};
ghost use Rattle.workload_text.specs.Fields as spelled;

use deneva_base::{NoMemory, PushNoMemory};
use std::fmt;
use std::fmt::{Display, Formatter, Write};
use thiserror::Error;

/// What is wrong.
#[derive(Clone, Copy, Debug, PartialEq, Eq, Error)]
pub enum FaultKind {
    /// The file does not begin as a workload file does.
    #[error("not a workload file of a format that is known")]
    Magic,
    /// A word that is unknown, or that may not stand here.
    #[error("a word that is unknown, or that may not stand here")]
    Kind,
    /// A wrong number of fields.
    #[error("a wrong number of fields")]
    Arity,
    /// Not ASCII digits without a leading zero.
    #[error("not a number in ASCII digits without a leading zero")]
    NotANumber,
    /// A number outside its range, or a text that is too long.
    #[error("a number outside its range, or a text that is too long")]
    OutOfRange,
    /// A transaction accesses a key that is not loaded.
    #[error("a key that is not loaded")]
    UnknownKey,
    /// A key that is loaded already, or that the transaction accesses already.
    #[error("a key that is repeated")]
    Repeated,
    /// More of something than the limit allows.
    #[error("more than {limit}")]
    TooMany { limit: u32 },
    /// The file ends before its `end`.
    #[error("no record `end`")]
    NoEnd,
    /// A record after the `end`.
    #[error("a record after the `end`")]
    Trailing,
    /// More bytes than a file may have.
    #[error("more bytes than a workload file may have")]
    TooLong,
}

/// The first fault of a file: its record and its field, both counted from 1. Field 0 is the whole record, record 0 the
/// whole file. Both numbers stop at 4,294,967,295.
#[derive(Clone, Copy, Debug, PartialEq, Eq)]
pub struct InputFault {
    pub record_no: u32,
    pub field_no: u32,
    pub kind: FaultKind,
}

impl Display for InputFault {
    fn fmt<W: Write>(&self, f: &mut Formatter<W>) -> Result<(), fmt::Error> {
        match (self.record_no, self.field_no) {
            (0, _) => write!(f, "{}", self.kind),
            (record_no, 0) => write!(f, "record {record_no}: {}", self.kind),
            (record_no, field_no) => {
                write!(f, "record {record_no}, field {field_no}: {}", self.kind)
            }
        }
    }
}

/// Why a file was not read.
#[derive(Clone, Copy, Debug, PartialEq, Eq, Error)]
pub enum ReadError {
    #[error("out of memory")]
    NoMemory,
    #[error("{0}")]
    Fault(InputFault),
    /// The source failed.
    #[error("the file could not be read")]
    ReadFault,
}

/// A fault within one record: its field, or 0 for the whole record.
#[derive(Clone, Copy, Debug, PartialEq, Eq)]
pub struct Flaw {
    pub field_no: usize,
    pub kind: FaultKind,
}

/// The number of a record or a field, as a fault holds it.
pub fn fault_number(n: usize) -> u32
    ensures { result ≡ min n 4294967295 }
{
    u32::try_from(n).unwrap_or(u32::MAX)
}

/// A fault of a file.
pub fn fault(record_no: usize, field_no: usize, kind: FaultKind) -> InputFault
    ensures { result ≡ spelled.fault record_no field_no kind }
{
    InputFault {
        record_no: fault_number(record_no),
        field_no: fault_number(field_no),
        kind,
    }
}

/// Why a record was not read.
#[derive(Clone, Copy, Debug, PartialEq, Eq)]
pub enum RecordError {
    NoMemory,
    Flawed(Flaw),
}

impl From<NoMemory> for RecordError {
    ghost use Rattle.std.specs.Prelude.{◌≡◌};
    ghost use Rattle.workload_text.specs.declared.faults.RecordError.TheVariants as error;

    ghost from_gives = { λ _ e. e ≡ error.NoMemory };

    fn from(_error: NoMemory) -> RecordError {
        RecordError::NoMemory
    }
}

impl From<Flaw> for RecordError {
    ghost use Rattle.std.specs.Prelude.{◌≡◌};
    ghost use Rattle.workload_text.specs.declared.faults.RecordError.TheVariants as error;

    ghost from_gives = { λ f e. e ≡ error.Flawed f };

    fn from(flaw: Flaw) -> RecordError {
        RecordError::Flawed(flaw)
    }
}

impl<T: Drop> From<PushNoMemory<T>> for RecordError {
    ghost use Rattle.std.specs.Prelude.{◌≡◌};
    ghost use Rattle.workload_text.specs.declared.faults.RecordError.TheVariants as error;

    ghost from_gives = { λ _ e. e ≡ error.NoMemory };

    fn from(_error: PushNoMemory<T>) -> RecordError {
        RecordError::NoMemory
    }
}

impl From<NoMemory> for ReadError {
    ghost use Rattle.std.specs.Prelude.{◌≡◌};
    ghost use Rattle.workload_text.specs.declared.faults.ReadError.TheVariants as error;

    ghost from_gives = { λ _ e. e ≡ error.NoMemory };

    fn from(_error: NoMemory) -> ReadError {
        ReadError::NoMemory
    }
}
