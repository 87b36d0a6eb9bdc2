//! The whole texts.
ghost use Rattle.std.specs.Prelude.{◌≡◌, IfOk, OnOk};
ghost use Rattle.records.specs.Records.{line_of};
ghost use Rattle.server_core.specs.ReportOrder.{InReportOrder};
ghost use Rattle.report.specs.ReportText as spec;
ghost use Rattle.report.specs.ReportText.{head_record, report_text, brief_text};

use crate::aborts::{put_aborts, put_giveups};
use crate::decided::put_all_decided;
use crate::fields::{Line, kind_word};
use crate::rows::put_rows;
use deneva_base::{ByteList, NoMemory};
use records::RecordText;
use server_core::{Decided, Outcome};
use std::alloc::Global;
use txn_program::Verdict;

/// The text of one record.
pub fn write_line(alloc: Global, line: &Line) -> Result<ByteList, NoMemory>
    ensures { IfOk result (λ text. text ≡ line_of line.now) }
{
    RecordText::new(alloc).put(line.fields())?.finish()
}

/// Makes the first record of a report.
fn write_head(line: &mut Line, outcome: &Outcome) -> Result<(), NoMemory>
    ensures { OnOk result (line.new ≡ head_record outcome.now) }
{
    line.begin(b"deneva-report")?;
    line.push(b"1")?;
    line.push(kind_word(outcome.kind).as_bytes())?;
    line.push_number(outcome.parts)
}

/// The report of an outcome: its head, the decided transactions with what each read, those given up, the aborted
/// attempts, the final rows, each in the order that the outcome has them, and `end`.
pub(crate) fn write_lines(alloc: Global, outcome: &Outcome) -> Result<ByteList, NoMemory>
    ensures { IfOk result (λ text. text ≡ report_text outcome.now) }
{
    let mut line = Line::new(alloc);
    write_head(&mut line, outcome)?;
    let text = RecordText::new(alloc).put(line.fields())?;
    let text = put_all_decided(text, &mut line, outcome.decided.as_slice())?;
    let text = put_giveups(text, &mut line, outcome.giveups.as_slice())?;
    let text = put_aborts(text, &mut line, outcome.aborts.as_slice())?;
    let text = put_rows(text, &mut line, "row", outcome.rows.as_slice())?;
    line.begin(b"end")?;
    text.put(line.fields())?.finish()
}

/// The report of an outcome: its head, the decided transactions with what each read, those given up, the aborted
/// attempts, the final rows, each in the order of a report, and `end`.
pub fn write_report(alloc: Global, outcome: &Outcome) -> Result<ByteList, NoMemory>
    requires { InReportOrder outcome.now }
    ensures { IfOk result (λ text. text ≡ report_text outcome.now) }
{
    write_lines(alloc, outcome)
}

/// How many of the transactions committed.
fn commits(list: &[Decided]) -> usize
    ensures { result ≡ spec.commits list.now }
{
    let mut count = 0;
    for decided in list {
        if decided.verdict == Verdict::Commit {
            count += 1;
        }
    }
    count
}

/// The brief line of an outcome: how its transactions were run, and how many committed, rolled themselves back and were
/// given up, how many attempts were aborted, and how many rows there are at the end.
pub fn write_brief(alloc: Global, outcome: &Outcome) -> Result<ByteList, NoMemory>
    ensures { IfOk result (λ text. text ≡ brief_text outcome.now) }
{
    let commits = commits(outcome.decided.as_slice());
    let mut line = Line::new(alloc);
    line.begin(b"brief")?;
    line.push(kind_word(outcome.kind).as_bytes())?;
    line.push_number(outcome.parts)?;
    line.push_number(commits)?;
    line.push_number(outcome.decided.len() - commits)?;
    line.push_number(outcome.giveups.len())?;
    line.push_number(outcome.aborts.len())?;
    line.push_number(outcome.rows.len())?;
    write_line(alloc, &line)
}
