//! Reading a source to its end.
ghost use Rattle.std.specs.Prelude.{◌≡◌, ◌≤◌, ◌-◌, length, IfOk};
ghost use Rattle.txn_program.specs.Valid.{IsValid};
ghost use Rattle.workload_text.specs.Files.{IsRising};
ghost use Rattle.workload_text.specs.Sources.{ReadsAll, ReadsInput};

use crate::faults::{FaultKind, InputFault, ReadError};
use crate::lines::parse_workload;
use deneva_base::ByteList;
use deneva_io::{Got, Source};
use std::alloc::Global;
use txn_program::Workload;

/// The most bytes that a workload file may have.
const FILE_LIMIT: usize = 67_108_864;

/// Reads a source to its end. It is `TooLong` if more than `most` bytes came before the end and no read failed before. The
/// bytes that were read stay taken from the source, whatever the answer.
pub fn read_bytes<S: Source>(
    alloc: Global,
    source: &mut S,
    most: usize,
) -> Result<ByteList, ReadError>
    ensures answer { ReadsAll most (S.left source.old) (S.left source.new) (S.faults source.old) (S.faults source.new) result }
    ensures count { S.faults source.old ≤ S.faults source.new }
{
    let mut buffer = [0u8; 4096];
    let mut all = ByteList::new(alloc);
    loop {
        match source.read(&mut buffer) {
            Got::Bytes(count) => {
                if count > most - all.len() {
                    return Err(ReadError::Fault(InputFault {
                        record_no: 0,
                        field_no: 0,
                        kind: FaultKind::TooLong,
                    }));
                }
                all.extend(&buffer[..count])?;
            }
            Got::End => return Ok(all),
            Got::Failed => return Err(ReadError::ReadFault),
        }
    }
}

/// Reads a workload file of at most 67,108,864 bytes from a source.
pub fn read_workload<S: Source>(alloc: Global, source: &mut S) -> Result<Workload, ReadError>
    ensures answer { ReadsInput (S.left source.old) (S.left source.new) (S.faults source.old) (S.faults source.new) result }
    ensures valid { IfOk result (λ work. IsValid work) }
    ensures order { IfOk result (λ work. IsRising work.load.rows) }
    ensures count { S.faults source.old ≤ S.faults source.new }
{
    let bytes = read_bytes(alloc, source, FILE_LIMIT)?;
    parse_workload(alloc, &bytes)
}
