//! Where accesses lie.
ghost use Rattle.std.specs.Prelude.{◌≡◌, ◌≤◌, ◌<◌, ◌==◌, ℕ, IfOk, IfSome, false, get_or, length};
ghost use Rattle.std.specs.List.{list_any};
ghost use Rattle.deneva_base.specs.Partitions.{partition_of};
ghost use Rattle.txn_program.specs.Transactions as transactions;

use deneva_base::{Access, ByteList, Key, NoMemory, partition_of};
use std::alloc::Global;

/// One of the partitions of a run: `part`, counted from 0, of `parts`.
#[derive(Clone, Copy, Debug, PartialEq, Eq)]
pub struct Partition {
    pub part: u8,
    pub parts: u8,
}

/// Whether the key lies at the partition. Without one, each key does.
pub(crate) fn is_within(made: Option<Partition>, key: Key) -> bool
    requires { IfSome made (λ p. 1 ≤ p.parts) }
    ensures { result ≡ transactions.is_within made key }
{
    match made {
        Some(partition) => partition_of(key, partition.parts) == partition.part,
        None => true,
    }
}

/// Of each partition whether one of the accesses lies there.
fn marks_of(alloc: Global, parts: u8, accesses: &[Access]) -> Result<Vec<bool>, NoMemory>
    requires { 1 ≤ parts }
    ensures size { IfOk result (λ marks. length marks.items ≡ parts) }
    ensures marked { IfOk result (λ marks. (p : ℕ) → p < parts → get_or marks.items p false ≡ list_any (λ a. partition_of a.key parts == p) accesses.now) }
{
    let mut marks = vec![in alloc; false; usize::from(parts)]?;
    for access in accesses {
        marks[usize::from(partition_of(access.key, parts))] = true;
    }
    Ok(marks)
}

/// The partitions of these accesses, in rising order.
pub fn partitions_of(alloc: Global, parts: u8, accesses: &[Access]) -> Result<ByteList, NoMemory>
    requires { 1 ≤ parts }
    ensures { IfOk result (λ list. list ≡ transactions.partitions_of parts accesses.now) }
{
    let marks = marks_of(alloc, parts, accesses)?;
    let mut found = ByteList::new(alloc);
    for part in 0..parts {
        if marks[usize::from(part)] {
            found.push(part)?;
        }
    }
    Ok(found)
}
