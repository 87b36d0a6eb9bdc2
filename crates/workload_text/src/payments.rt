//! The record of a payment.
ghost use Rattle.std.specs.Prelude.{◌≡◌, map};
ghost use Rattle.workload_text.specs.Gives.{Gives};
ghost use Rattle.workload_text.specs.Tpcc as tpcc;
ghost use Rattle.workload_text.specs.declared.payments.Naming.TheVariants.{ById, ByName};

use crate::faults::{Flaw, RecordError};
use crate::fields::{field, is_word};
use crate::tables::{customer_at, district_at, warehouse_at};
use crate::texts::short_text_at;
use deneva_base::ByteList;
use std::alloc::Global;

/// How the customer of a payment is named.
#[derive(Clone, Copy, Debug, PartialEq, Eq)]
pub enum Naming {
    ById,
    ByName,
}

/// Who pays: a customer's number, or a last name.
#[derive(Debug, Drop)]
pub enum Payer {
    Numbered(u32),
    Named(ByteList),
}

/// Where a payment is paid, and the customer's own warehouse and district.
#[derive(Clone, Copy, Debug, PartialEq, Eq)]
pub struct Places {
    pub w: u32,
    pub d: u32,
    pub cw: u32,
    pub cd: u32,
}

pub fn naming_of(word: &[u8]) -> Option<Naming>
    ensures { result ≡ tpcc.naming_of word.now }
{
    if is_word(word, "id") {
        Some(Naming::ById)
    } else if is_word(word, "name") {
        Some(Naming::ByName)
    } else {
        None
    }
}

/// The places of a payment's record.
pub fn places_from(fields: &[&[u8]]) -> Result<Places, Flaw>
    ensures { result ≡ tpcc.places_from (map (λ f. f.now) fields.now) }
{
    let w = warehouse_at(fields, 2)?;
    let d = district_at(fields, 3)?;
    let cw = warehouse_at(fields, 4)?;
    let cd = district_at(fields, 5)?;
    Ok(Places { w, d, cw, cd })
}

/// Who pays by a payment's record.
pub fn payer_from(alloc: Global, naming: Naming, fields: &[&[u8]]) -> Result<Payer, RecordError>
    ensures { Gives result (tpcc.payer_from naming (map (λ f. f.now) fields.now)) }
{
    match naming {
        Naming::ById => {
            let number = customer_at(fields, 7)?;
            Ok(Payer::Numbered(number))
        }
        Naming::ByName => {
            let last = short_text_at(alloc, 7, 16, field(fields, 7))?;
            Ok(Payer::Named(last))
        }
    }
}
