//! The records of transactions that were given up, and of aborted attempts.
ghost use Rattle.std.specs.Prelude.{◌≡◌, ◌++◌, ◌∷◌, [], OnOk, IfOk, map, decimal};
ghost use Rattle.records.specs.Records.{line_of, text_of};
ghost use Rattle.report.specs.ReportText.{key_text, giveup_record, cause_fields, abort_record};

use crate::fields::Line;
use deneva_base::{Cause, Key, NoMemory};
use records::RecordText;
use server_core::{AbortLine, Giveup};

/// Puts the record of a transaction that was given up at the end.
fn put_giveup(text: RecordText, line: &mut Line, giveup: &Giveup) -> Result<RecordText, NoMemory>
    ensures { IfOk result (λ longer. longer ≡ text ++ line_of (giveup_record giveup.now)) }
{
    line.begin(b"giveup")?;
    line.push_number(giveup.id.0)?;
    line.push_number(giveup.turns)?;
    text.put(line.fields())
}

/// Puts the records of transactions that were given up at the end.
pub fn put_giveups(
    mut text: RecordText,
    line: &mut Line,
    giveups: &[Giveup],
) -> Result<RecordText, NoMemory>
    ensures { IfOk result (λ longer. longer ≡ text ++ text_of (map giveup_record giveups.now)) }
{
    for giveup in giveups {
        text = put_giveup(text, line, giveup)?;
    }
    Ok(text)
}

/// Puts a word, a key and a number at the end of a record.
fn push_keyed_number(line: &mut Line, word: &[u8], key: Key, number: u64) -> Result<(), NoMemory>
    ensures { OnOk result (line.new ≡ line.old ++ word.now ∷ key_text key ∷ decimal number ∷ []) }
{
    line.push(word)?;
    line.push_key(key)?;
    line.push_number(number)
}

/// Puts the fields that tell why an attempt was aborted at the end of a record.
fn push_cause(line: &mut Line, cause: Cause) -> Result<(), NoMemory>
    ensures { OnOk result (line.new ≡ line.old ++ cause_fields cause) }
{
    match cause {
        Cause::Held { key, by } => {
            line.push(b"held")?;
            line.push_key(key)?;
            line.push_attempt(by)
        }
        Cause::Younger { key, by, age } => {
            line.push(b"younger")?;
            line.push_key(key)?;
            line.push_attempt(by)?;
            line.push_number(age)
        }
        Cause::Written { key, stamp } => push_keyed_number(line, b"written", key, stamp),
        Cause::ReadLater { key, stamp } => push_keyed_number(line, b"readlater", key, stamp),
        Cause::EmptyRange {
            lo,
            lo_key,
            hi,
            hi_by,
        } => {
            line.push(b"emptyrange")?;
            line.push_number(lo)?;
            line.push_key(lo_key)?;
            line.push_number(hi)?;
            line.push_attempt(hi_by)
        }
        Cause::Apart {
            lo,
            lo_part,
            hi,
            hi_part,
        } => {
            line.push(b"apart")?;
            line.push_number(lo)?;
            line.push_number(lo_part)?;
            line.push_number(hi)?;
            line.push_number(hi_part)
        }
        Cause::Trimmed { key, floor } => push_keyed_number(line, b"trimmed", key, floor),
    }
}

/// Puts the record of an aborted attempt at the end.
fn put_abort(text: RecordText, line: &mut Line, abort: &AbortLine) -> Result<RecordText, NoMemory>
    ensures { IfOk result (λ longer. longer ≡ text ++ line_of (abort_record abort.now)) }
{
    line.begin(b"abort")?;
    line.push_number(abort.who.txn.0)?;
    line.push_number(abort.who.turn)?;
    line.push_number(abort.place)?;
    line.push_number(abort.node)?;
    push_cause(line, abort.cause)?;
    text.put(line.fields())
}

/// Puts the records of aborted attempts at the end.
pub fn put_aborts(
    mut text: RecordText,
    line: &mut Line,
    aborts: &[AbortLine],
) -> Result<RecordText, NoMemory>
    ensures { IfOk result (λ longer. longer ≡ text ++ text_of (map abort_record aborts.now)) }
{
    for abort in aborts {
        text = put_abort(text, line, abort)?;
    }
    Ok(text)
}
