//! The global order.
ghost use Rattle.std.specs.Prelude.{◌≡◌, ◌≤◌, IfOk, map, length, filter, take, ◌==◌};
ghost use Rattle.deneva_base.specs.Lists.{IsIn};
ghost use Rattle.deneva_base.specs.declared.config.Config.{Config};
ghost use Rattle.txn_program.specs.Serial.{all_ids};
ghost use Rattle.txn_program.specs.Valid.{IsValid};
ghost use Rattle.server_core.specs.GlobalOrder as global;
ghost use Rattle.server_core.specs.Setting.{setting, home};

use deneva_base::{NoMemory, Number, TxnId};
use server_core::{BATCH, ordered_number};
use std::alloc::Global;
use txn_program::{Workload, home};

/// How many of the first `limit` transactions of the file have their home at the node.
fn count_homes(work: &Workload, parts: u8, part: u8, limit: usize) -> usize
    requires valid { IsValid work.now }
    requires parts { 1 ≤ parts }
    requires limit { limit ≤ length work.now.programs }
    ensures counted { (c : Config) → c.parts ≡ parts → result ≡ length (filter (λ x. home (setting c work.now) x == part) (take limit (all_ids work.now))) }
    ensures few { result ≤ limit }
{
    let mut count = 0;
    for at in 0..limit {
        if home(&work.load, work.programs.get(at), parts) == part {
            count += 1;
        }
    }
    count
}

/// The number of epochs: as many as the sequencer with the most transactions has batches.
pub fn epochs(work: &Workload, parts: u8) -> u32
    requires parts { 1 ≤ parts }
    requires valid { IsValid work.now }
    ensures { (c : Config) → c.parts ≡ parts → result ≡ global.epochs (setting c work.now) }
{
    let mut most = 0;
    for part in 0..parts {
        let homes = count_homes(work, parts, part, work.programs.len());
        most = most.max(homes.div_ceil(BATCH));
    }
    most as u32
}

/// The number of a transaction in the global order. It takes no memory, and time by the transactions before it.
pub fn calvin_number(work: &Workload, parts: u8, id: TxnId) -> Number
    requires parts { 1 ≤ parts }
    requires valid { IsValid work.now }
    requires id { IsIn id (all_ids work.now) }
    ensures { (c : Config) → c.parts ≡ parts → result ≡ global.number (setting c work.now) id }
{
    let at = id.0 as usize - 1;
    let seq = home(&work.load, work.programs.get(at), parts);
    let index = count_homes(work, parts, seq, at);
    Number {
        n: ordered_number(parts, seq, index),
        id,
    }
}

/// The numbers of all transactions in the global order, in file order. They take one pass.
pub fn numbers_of(alloc: Global, work: &Workload, parts: u8) -> Result<Vec<Number>, NoMemory>
    requires parts { 1 ≤ parts }
    requires valid { IsValid work.now }
    ensures { IfOk result (λ numbers. (c : Config) → c.parts ≡ parts → numbers.items ≡ map (global.number (setting c work.now)) (all_ids work.now)) }
{
    let mut counts: Vec<usize> = vec![in alloc; 0; usize::from(parts)]?;
    let mut numbers = Vec::with_capacity(alloc, work.programs.len())?;
    for at in 0..work.programs.len() {
        let seq = home(&work.load, work.programs.get(at), parts);
        let index = counts[usize::from(seq)];
        counts[usize::from(seq)] += 1;
        numbers.push(Number {
            n: ordered_number(parts, seq, index),
            id: TxnId(at as u32 + 1),
        })?;
    }
    Ok(numbers)
}
