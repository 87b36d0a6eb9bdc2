//! The fields of records.
ghost use Rattle.std.specs.Prelude.{◌≡◌, ◌++◌, ◌∷◌, [], OnOk, map, decimal};
ghost use Rattle.std.specs.List.{flat_map};
ghost use Rattle.report.specs.ReportText as spec;
ghost use Rattle.report.specs.ReportText.{key_text, attempt_text, participants_text};

use deneva_base::{Attempt, Key, NoMemory};
use itoa::{Buffer, Integer};
use records::RecordFields;
use server_core::RunKind;
use std::alloc::Global;
use std::marker::Model;

/// Puts the text of a number at the end.
fn extend_number<I: Integer>(text: &mut Vec<u8>, number: I) -> Result<(), NoMemory>
    ensures { OnOk result (text.new.items ≡ text.old.items ++ I.text number) }
{
    Ok(text.extend_from_slice(Buffer::new().format(number).as_bytes())?)
}

/// Puts a point and a number at the end.
fn extend_part<I: Integer>(text: &mut Vec<u8>, number: I) -> Result<(), NoMemory>
    ensures { OnOk result (text.new.items ≡ text.old.items ++ 46 ∷ I.text number) }
{
    text.extend_from_slice(b".")?;
    extend_number(text, number)
}

/// Puts numbers, each behind a point, at the end.
fn extend_parts(text: &mut Vec<u8>, numbers: &[u8]) -> Result<(), NoMemory>
    ensures { OnOk result (text.new.items ≡ text.old.items ++ flat_map (λ bytes. 46 ∷ bytes) (map decimal numbers.now)) }
{
    for number in numbers {
        extend_part(text, *number)?;
    }
    Ok(())
}

/// Puts the participants at the end.
fn extend_participants(text: &mut Vec<u8>, parts: &[u8]) -> Result<(), NoMemory>
    ensures { OnOk result (text.new.items ≡ text.old.items ++ participants_text parts.now) }
{
    let Some((first, others)) = parts.split_first() else {
        return Ok(());
    };
    extend_number(text, *first)?;
    extend_parts(text, others)
}

/// The record that is being made, which contracts see as the list of its fields.
#[derive(Drop)]
pub struct Line {
    fields: RecordFields,
    /// Where a field of several numbers is joined, so that no record takes memory of its own.
    joined: Vec<u8>,
}

impl Model for Line {
    ghost use Rattle.records.specs.Records.{Record};

    ghost Value = { Record };

    ghost view = { λ line. line.fields };
}

impl Line {
    pub fn new(alloc: Global) -> Line
        ensures { result ≡ [] }
    {
        Line {
            fields: RecordFields::new(alloc),
            joined: Vec::new(alloc),
        }
    }

    /// Its fields.
    pub fn fields(&self) -> &RecordFields
        ensures { result.now ≡ self.now }
    {
        &self.fields
    }

    /// Begins the next record with a word.
    pub fn begin(&mut self, word: &[u8]) -> Result<(), NoMemory>
        ensures { OnOk result (self.new ≡ word.now ∷ []) }
    {
        self.fields.clear();
        self.fields.push(word)
    }

    /// Puts a field at the end.
    pub fn push(&mut self, field: &[u8]) -> Result<(), NoMemory>
        ensures { OnOk result (self.new ≡ self.old ++ field.now ∷ []) }
    {
        self.fields.push(field)
    }

    /// Puts a number, in decimal digits, at the end.
    pub fn push_number<I: Integer>(&mut self, number: I) -> Result<(), NoMemory>
        ensures { OnOk result (self.new ≡ self.old ++ I.text number ∷ []) }
    {
        self.fields.push(Buffer::new().format(number).as_bytes())
    }

    /// Puts a key at the end.
    pub(crate) fn push_key(&mut self, key: Key) -> Result<(), NoMemory>
        ensures { OnOk result (self.new ≡ self.old ++ key_text key ∷ []) }
    {
        self.joined.clear();
        extend_number(&mut self.joined, key.table)?;
        extend_part(&mut self.joined, key.a)?;
        extend_part(&mut self.joined, key.b)?;
        extend_part(&mut self.joined, key.c)?;
        self.fields.push(&self.joined)
    }

    /// Puts an attempt at the end.
    pub(crate) fn push_attempt(&mut self, who: Attempt) -> Result<(), NoMemory>
        ensures { OnOk result (self.new ≡ self.old ++ attempt_text who ∷ []) }
    {
        self.joined.clear();
        extend_number(&mut self.joined, who.txn.0)?;
        extend_part(&mut self.joined, who.turn)?;
        self.fields.push(&self.joined)
    }

    /// Puts the participants at the end.
    pub(crate) fn push_participants(&mut self, parts: &[u8]) -> Result<(), NoMemory>
        ensures { OnOk result (self.new ≡ self.old ++ participants_text parts.now ∷ []) }
    {
        self.joined.clear();
        extend_participants(&mut self.joined, parts)?;
        self.fields.push(&self.joined)
    }
}

/// The word of how the transactions were run.
pub fn kind_word(kind: RunKind) -> &'static str
    ensures { result.now ≡ spec.kind_word kind }
{
    match kind {
        RunKind::Serial => "serial",
        RunKind::Under(protocol) => protocol.word(),
    }
}
