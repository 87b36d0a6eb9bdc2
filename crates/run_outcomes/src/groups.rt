//! The entries of a run by the transactions that they are about.
ghost use Rattle.std.specs.Prelude.{◌≡◌, [], map, IfOk};
ghost use Rattle.run_outcomes.specs.Naming.{groups_of};

use deneva_base::NoMemory;
use server_core::Entry;
use std::alloc::Global;

/// The entries about one transaction.
pub(crate) type Group<'h> = Vec<&'h Entry>;

/// A group without an entry for each of so many transactions.
fn empty_groups<'h>(alloc: Global, count: usize) -> Result<Vec<Group<'h>>, NoMemory>
    ensures { IfOk result (λ v. map (λ g. map (λ e. e.now) g.items) v.items ≡ groups_of count []) }
{
    let mut groups = Vec::with_capacity(alloc, count)?;
    for _ in 0..count {
        groups.push(Vec::new(alloc))?;
    }
    Ok(groups)
}

/// The entries about each of so many transactions, the oldest first.
pub(crate) fn group<'h>(
    alloc: Global,
    count: usize,
    history: &'h [Entry],
) -> Result<Vec<Group<'h>>, NoMemory>
    ensures { IfOk result (λ v. map (λ g. map (λ e. e.now) g.items) v.items ≡ groups_of count history.now) }
{
    let mut groups = empty_groups(alloc, count)?;
    for entry in history {
        if let Some(id) = entry.msg.txn() {
            let place = id.0 as usize;
            if 1 <= place && place <= groups.len() {
                groups[place - 1].push(entry)?;
            }
        }
    }
    Ok(groups)
}
