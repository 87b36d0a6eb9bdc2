//! The head of a workload file, and what every record is read with.
ghost use Rattle.std.specs.Prelude.{◌≡◌, ◌≤◌, map, length};
ghost use Rattle.workload_text.specs.Grammar as grammar;
ghost use Rattle.workload_text.specs.declared.heads.Format.TheVariants.{One, Two};

use crate::faults::{FaultKind, Flaw};
use crate::fields::{field, flaw, is_word, number_at};
use txn_program::WorkKind;

/// The format of a file. Format 2 has the step `p` beside those of format 1, and no TPC-C.
#[derive(Clone, Copy, Debug, PartialEq, Eq)]
pub enum Format {
    One,
    Two,
}

/// What the head of a file of YCSB says: the format, and how many fields a row has.
#[derive(Clone, Copy, Debug, PartialEq, Eq)]
pub struct YcsbHead {
    pub format: Format,
    pub fields: u8,
}

/// What the head says.
#[derive(Clone, Copy, Debug, PartialEq, Eq)]
pub enum Head {
    Ycsb(YcsbHead),
    Tpcc,
}

impl Head {
    pub fn kind(self) -> WorkKind
        ensures { result ≡ grammar.kind_of self }
    {
        match self {
            Head::Ycsb(_) => WorkKind::Ycsb,
            Head::Tpcc => WorkKind::Tpcc,
        }
    }

    /// How many fields a row of YCSB has.
    pub fn fields(self) -> u8
        ensures { result ≡ grammar.fields_of_head self }
    {
        match self {
            Head::Ycsb(head) => head.fields,
            Head::Tpcc => 0,
        }
    }
}

fn format_of(field: &[u8]) -> Option<Format>
    ensures { result ≡ grammar.format_of field.now }
{
    if is_word(field, "1") {
        Some(Format::One)
    } else if is_word(field, "2") {
        Some(Format::Two)
    } else {
        None
    }
}

fn ycsb_head(fields: &[&[u8]], format: Format) -> Result<Head, Flaw>
    ensures { result ≡ grammar.ycsb_head (map (λ f. f.now) fields.now) format }
{
    if !is_word(field(fields, 3), "ycsb") {
        return Err(flaw(3, FaultKind::Kind));
    }
    if fields.len() != 4 {
        return Err(flaw(0, FaultKind::Arity));
    }
    let count = number_at(4, field(fields, 4), 1, 10)?;
    Ok(Head::Ycsb(YcsbHead {
        format,
        fields: count as u8,
    }))
}

/// The head of a file of format 1.
fn head_of_one(fields: &[&[u8]]) -> Result<Head, Flaw>
    ensures { result ≡ grammar.kind_of_format (map (λ f. f.now) fields.now) One }
{
    if !is_word(field(fields, 3), "tpcc") {
        return ycsb_head(fields, Format::One);
    }
    if fields.len() != 3 {
        return Err(flaw(0, FaultKind::Arity));
    }
    Ok(Head::Tpcc)
}

/// The head that the first record of a file is.
pub fn head_of(fields: &[&[u8]]) -> Result<Head, Flaw>
    ensures { result ≡ grammar.head_from (map (λ f. f.now) fields.now) }
{
    if !is_word(field(fields, 1), "deneva") {
        return Err(flaw(1, FaultKind::Magic));
    }
    let Some(format) = format_of(field(fields, 2)) else {
        return Err(flaw(2, FaultKind::Magic));
    };
    if fields.len() < 3 {
        return Err(flaw(0, FaultKind::Arity));
    }
    match format {
        Format::One => head_of_one(fields),
        Format::Two => ycsb_head(fields, format),
    }
}
