//! The records of decided transactions.
ghost use Rattle.std.specs.Prelude.{◌≡◌, ◌++◌, OnOk, IfOk};
ghost use Rattle.std.specs.List.{flat_map};
ghost use Rattle.records.specs.Records.{line_of, text_of};
ghost use Rattle.report.specs.ReportText.{reason_fields, decided_record, decided_records};

use crate::fields::Line;
use crate::rows::put_rows;
use deneva_base::NoMemory;
use records::RecordText;
use server_core::Decided;
use txn_program::{Reason, Verdict};

/// Puts the fields that tell why a transaction rolled itself back at the end of a record.
fn push_reason(line: &mut Line, reason: Reason) -> Result<(), NoMemory>
    ensures { OnOk result (line.new ≡ line.old ++ reason_fields reason) }
{
    match reason {
        Reason::UnusedItem { item } => {
            line.push(b"unused")?;
            line.push_number(item)
        }
        Reason::Range { key } => {
            line.push(b"range")?;
            line.push_key(key)
        }
    }
}

/// Makes the record that tells how a transaction ended.
fn write_ending(line: &mut Line, decided: &Decided) -> Result<(), NoMemory>
    ensures { OnOk result (line.new ≡ decided_record decided.now) }
{
    match decided.verdict {
        Verdict::Commit => {
            line.begin(b"commit")?;
            line.push_number(decided.number.n)?;
            line.push_number(decided.number.id.0)?;
            line.push_number(decided.answer)?;
            line.push_participants(decided.participants.as_slice())
        }
        Verdict::Rollback(reason) => {
            line.begin(b"rollback")?;
            line.push_number(decided.number.n)?;
            line.push_number(decided.number.id.0)?;
            line.push_participants(decided.participants.as_slice())?;
            push_reason(line, reason)
        }
    }
}

/// Puts the records of a decided transaction at the end: how it ended, and what it read.
fn put_decided(text: RecordText, line: &mut Line, decided: &Decided) -> Result<RecordText, NoMemory>
    ensures { IfOk result (λ longer. longer ≡ text ++ text_of (decided_records decided.now)) }
{
    write_ending(line, decided)?;
    let text = text.put(line.fields())?;
    put_rows(text, line, "read", decided.reads.as_slice())
}

/// Puts the records of decided transactions at the end.
pub fn put_all_decided(
    mut text: RecordText,
    line: &mut Line,
    list: &[Decided],
) -> Result<RecordText, NoMemory>
    ensures { IfOk result (λ longer. longer ≡ text ++ flat_map (λ d. text_of (decided_records d)) list.now) }
{
    for decided in list {
        text = put_decided(text, line, decided)?;
    }
    Ok(text)
}
