//! How many participants transactions have.
ghost use Rattle.std.specs.Prelude.{◌≡◌, ◌≤◌, IfOk, map, length};
ghost use Rattle.deneva_base.specs.declared.config.Config.{Config};
ghost use Rattle.txn_program.specs.Serial.{all_ids};
ghost use Rattle.server_core.specs.Setting.{setting, participants_for};

use deneva_base::NoMemory;
use std::alloc::Global;
use txn_program::{Workload, accesses_of, partitions_of};

/// How many participants each transaction has, in file order.
pub fn participant_counts(alloc: Global, work: &Workload, parts: u8) -> Result<Vec<u8>, NoMemory>
    requires parts { 1 ≤ parts }
    ensures { IfOk result (λ counts. (c : Config) → c.parts ≡ parts → counts.items ≡ map (λ x. length (participants_for (setting c work.now) x)) (all_ids work.now)) }
{
    let mut counts = Vec::with_capacity(alloc, work.programs.len())?;
    for at in 0..work.programs.len() {
        let accesses = accesses_of(alloc, &work.load, work.programs.get(at))?;
        let found = partitions_of(alloc, parts, accesses.as_slice())?;
        counts.push(found.len() as u8)?;
    }
    Ok(counts)
}
