//! Where a key lies.
ghost use Rattle.std.specs.Prelude.{◌≡◌, ◌≤◌, ◌<◌};
ghost use Rattle.deneva_base.specs.Partitions.{partition_of};

use crate::keys::Key;

/// The partition of a key, counted from 0: the YCSB key modulo the number of partitions, and for every other table
/// its warehouse, counted from 0, likewise.
pub fn partition_of(key: Key, parts: u8) -> u8
    requires { 1 ≤ parts }
    ensures part { result ≡ partition_of key parts }
    ensures below { result < parts }
{
    let place = if key.table == 0 {
        key.a
    } else {
        key.a.saturating_sub(1)
    };
    (place % u32::from(parts)) as u8
}
