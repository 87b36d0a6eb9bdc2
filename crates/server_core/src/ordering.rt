//! The numbers of Calvin's global order.
ghost use Rattle.std.specs.Prelude.{◌≡◌, ◌≤◌, ◌/◌, ◌%◌};
ghost use Rattle.server_core.specs.GlobalOrder.{numbered};

/// How many transactions of a sequencer make a batch of Calvin.
pub const BATCH: usize = 8;

/// The n of the transaction that is at this index, counted from 0, of the home transactions of a sequencer: with N
/// sequencers, the one at index `i` of epoch `e` of sequencer `s` has (e N + s) 8 + i + 1.
pub fn ordered_number(parts: u8, seq: u8, index: usize) -> u64
    requires small { index ≤ 10000 }
    ensures { result ≡ numbered parts (index / 8) seq (index % 8) }
{
    let batch = (index / BATCH) as u64 * u64::from(parts) + u64::from(seq);
    batch * BATCH as u64 + (index % BATCH) as u64 + 1
}
