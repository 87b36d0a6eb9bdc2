//! The records of a workload file, from its head to its `end`.
ghost use Rattle.std.specs.Prelude.{◌≡◌, ◌+◌, ◌<◌, ◌≤◌, ◌^◌, map, length, IfOk};
ghost use Rattle.csv.specs.Records.{fields_of};
ghost use Rattle.txn_program.specs.Valid.{IsValid};
ghost use Rattle.workload_text.specs.Files.{IsRising};
ghost use Rattle.workload_text.specs.Grammar as grammar;
ghost use Rattle.workload_text.specs.Reader.{Reads, ReadsPrefix, ReadsToEnd, HeadGives, error_at, work_of};

use crate::faults::{FaultKind, ReadError, RecordError, fault, fault_number};
use crate::heads::{Head, head_of};
use crate::reader::read_record;
use crate::reading::{Progress, Reading};
use deneva_base::ByteList;
use records::{ByteRecord, RecordReader, fields_in};
use std::alloc::Global;
use txn_program::Workload;

/// What was read where the file's `end` came, and the number of that record.
#[derive(Drop)]
pub struct FileEnd {
    pub reading: Reading,
    pub record_no: usize,
}

/// The error of a record as one of the file.
fn at_record(record_no: usize, error: RecordError) -> ReadError
    ensures { result ≡ error_at record_no error }
{
    match error {
        RecordError::NoMemory => ReadError::NoMemory,
        RecordError::Flawed(flaw) => ReadError::Fault(fault(record_no, flaw.field_no, flaw.kind)),
    }
}

/// The head that the first record of a file is.
fn read_head(alloc: Global, current: &ByteRecord) -> Result<Head, ReadError>
    ensures { HeadGives result (grammar.head_from (fields_of current.now)) }
{
    let fields = fields_in(alloc, current)?;
    match head_of(&fields) {
        Ok(head) => Ok(head),
        Err(flaw) => Err(ReadError::Fault(fault(1, flaw.field_no, flaw.kind))),
    }
}

/// Reads the records behind the head, up to and with the file's `end`.
fn read_to_end(
    alloc: Global,
    head: Head,
    records: &mut RecordReader,
    current: &mut ByteRecord,
) -> Result<FileEnd, ReadError>
    requires bound { length records.old < 2 ^ 63 }
    ensures answer { ReadsToEnd result records.new (grammar.prefix_on head 2 records.old (grammar.empty head)) }
    ensures place { IfOk result (λ ended. ended.record_no + length records.new ≡ length records.old + 1) }
{
    let mut reading = Reading::new(alloc, head);
    let mut record_no = 2;
    loop {
        if !records.read(current)? {
            return Err(ReadError::Fault(fault(record_no, 0, FaultKind::NoEnd)));
        }
        match read_record(alloc, &mut reading, current) {
            Ok(Progress::More) => record_no += 1,
            Ok(Progress::Ended) => return Ok(FileEnd { reading, record_no }),
            Err(error) => return Err(at_record(record_no, error)),
        }
    }
}

/// Reads a file from its head, up to and with its `end`.
fn read_file(
    alloc: Global,
    records: &mut RecordReader,
    current: &mut ByteRecord,
) -> Result<FileEnd, ReadError>
    requires bound { length records.old < 2 ^ 63 }
    ensures answer { ReadsToEnd result records.new (grammar.prefix_from records.old) }
    ensures place { IfOk result (λ ended. ended.record_no + length records.new ≡ length records.old) }
{
    if !records.read(current)? {
        return Err(ReadError::Fault(fault(1, 1, FaultKind::Magic)));
    }
    let head = read_head(alloc, current)?;
    read_to_end(alloc, head, records, current)
}

/// The workload of a text, of which no record may stand behind its `end`.
fn read_text(alloc: Global, text: &[u8]) -> Result<Workload, ReadError>
    ensures { Reads result (grammar.workload_of text.now) }
{
    let mut records = RecordReader::new(alloc, text);
    let mut current = ByteRecord::new(alloc);
    let ended = read_file(alloc, &mut records, &mut current)?;
    if records.read(&mut current)? {
        return Err(ReadError::Fault(fault(ended.record_no + 1, 0, FaultKind::Trailing)));
    }
    let work = ended.reading.finish(alloc)?;
    Ok(work)
}

/// The workload that the bytes of a file give, which is valid and has its load's rows in key order, or their first
/// fault. It never answers `ReadFault`, and the fault is never `TooLong`.
pub fn parse_workload(alloc: Global, bytes: &ByteList) -> Result<Workload, ReadError>
    ensures answer { Reads result (grammar.workload_of bytes.now) }
    ensures valid { IfOk result (λ work. IsValid work) }
    ensures order { IfOk result (λ work. IsRising work.load.rows) }
{
    read_text(alloc, bytes.as_slice())
}

/// The workload that the first records of some bytes give, up to and with the first `end`, and how many records these are,
/// or the first fault. The count stops at 4,294,967,295. It never answers `ReadFault`, and the fault is never `Trailing` or
/// `TooLong`.
pub fn parse_prefix(alloc: Global, bytes: &ByteList) -> Result<(Workload, u32), ReadError>
    ensures answer { ReadsPrefix result (grammar.prefix_of bytes.now) }
    ensures valid { IfOk result (λ prefix. IsValid prefix.0) }
    ensures order { IfOk result (λ prefix. IsRising prefix.0.load.rows) }
{
    let mut records = RecordReader::new(alloc, bytes.as_slice());
    let mut current = ByteRecord::new(alloc);
    let ended = read_file(alloc, &mut records, &mut current)?;
    let work = ended.reading.finish(alloc)?;
    Ok((work, fault_number(ended.record_no)))
}
