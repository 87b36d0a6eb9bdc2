//! What is kept of one key.
ghost use Rattle.std.specs.Prelude.{◌+◌, ◌≤◌};
ghost use Rattle.std.specs.Vec.{vec_len, vec_capacity};

mod asking;
mod ending;

use crate::links::ReadVersion;
use crate::requests::Request;

/// The unended accesses to a key by rising stamp, its kept versions in the order in which they were committed, and the
/// least stamp that may still ask. There is room for a version of each access.
#[derive(Drop)]
pub(crate) struct KeyVersions {
    pub requests: Vec<Request>,
    pub links: Vec<ReadVersion>,
    pub floor: u64,
    ghost room: { vec_len links + vec_len requests ≤ vec_capacity links },
}
