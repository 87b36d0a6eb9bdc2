//! The lines that tell why a call was refused.
ghost use Rattle.std.specs.Prelude.{◌≡◌, ◌++◌, OnOk, IfOk};
ghost use Rattle.deneva_top.specs.Calls.{kind_fields, fault_line};

use deneva_base::{ByteList, NoMemory};
use report::{Line, write_line};
use std::alloc::Global;
use workload_text::{FaultKind, InputFault};

/// Puts the fields that name what is wrong at the end of a record.
fn push_kind(line: &mut Line, kind: FaultKind) -> Result<(), NoMemory>
    ensures { OnOk result (line.new ≡ line.old ++ kind_fields kind) }
{
    match kind {
        FaultKind::Magic => line.push(b"magic"),
        FaultKind::Kind => line.push(b"kind"),
        FaultKind::Arity => line.push(b"arity"),
        FaultKind::NotANumber => line.push(b"notanumber"),
        FaultKind::OutOfRange => line.push(b"outofrange"),
        FaultKind::UnknownKey => line.push(b"unknownkey"),
        FaultKind::Repeated => line.push(b"repeated"),
        FaultKind::TooMany { limit } => {
            line.push(b"toomany")?;
            line.push_number(limit)
        }
        FaultKind::NoEnd => line.push(b"noend"),
        FaultKind::Trailing => line.push(b"trailing"),
        FaultKind::TooLong => line.push(b"toolong"),
    }
}

/// The line that names the first fault of an input: its record, its field and what is wrong.
pub fn write_fault(alloc: Global, fault: InputFault) -> Result<ByteList, NoMemory>
    ensures { IfOk result (λ text. text ≡ fault_line fault) }
{
    let mut line = Line::new(alloc);
    line.begin(b"fault")?;
    line.push(b"input")?;
    line.push_number(fault.record_no)?;
    line.push_number(fault.field_no)?;
    push_kind(&mut line, fault.kind)?;
    write_line(alloc, &line)
}
