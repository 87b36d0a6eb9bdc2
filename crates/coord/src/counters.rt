//! The numbers that a node hands out.
ghost use Rattle.std.specs.Prelude.{◌≡◌, ◌≤◌, ◌<◌, ◌+◌, ◌*◌, ◌^◌};
ghost use Rattle.server_core.specs.Small.{SmallCause};
ghost use Rattle.server_core.specs.Stamps as stamps;

use deneva_base::Cause;

/// The counter of stamps after a refusal with this cause.
pub(crate) fn counter_after(parts: u8, counter: u64, cause: &Cause) -> u64
    requires parts { 1 ≤ parts }
    requires small { SmallCause cause.now }
    ensures { result ≡ stamps.raised parts counter cause.now }
{
    let parts = u64::from(parts);
    match *cause {
        Cause::Written { stamp, .. } | Cause::ReadLater { stamp, .. } => {
            counter.max(stamp / parts + 1)
        }
        Cause::Trimmed { floor, .. } => counter.max(floor / parts + 1),
        Cause::Held { .. }
        | Cause::Younger { .. }
        | Cause::EmptyRange { .. }
        | Cause::Apart { .. } => counter,
    }
}

/// The stamp that a counter gives at a node. Modulo the number of nodes it tells the node, so no two nodes give one stamp.
pub(crate) fn stamp_of(counter: u64, parts: u8, part: u8) -> u64
    requires counter { counter ≤ 2 ^ 49 }
    requires parts { parts ≤ 16 }
    requires part { part < parts }
    ensures { result ≡ counter * parts + part + 1 }
{
    counter * u64::from(parts) + u64::from(part) + 1
}
