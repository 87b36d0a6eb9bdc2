//! What is left to come for an attempt, and what has come.
ghost use Rattle.std.specs.Prelude.{◌≡◌, not, filter, ◌==◌};
ghost use Rattle.coord.specs.Bounds.{bound_with};

use deneva_base::{Bound, Key, Row};

/// What a participant tells of an access that it grants: the key, its row, and the bound of the attempt's number.
#[derive(Clone, Copy)]
pub(crate) struct Grant<'m> {
    pub key: Key,
    pub row: &'m Row,
    pub bound: u64,
}

/// Takes a partition out of those that are left.
pub(crate) fn take_out(left: &mut Vec<u8>, part: u8)
    ensures { left.new.items ≡ filter (λ q. not (q == part)) left.old.items }
{
    left.retain(|other| *other != part);
}

/// The greatest bound so far with that of one more reply: of equal ones the first stands, and `first` says that there is
/// none yet.
pub(crate) fn greater_bound(best: Bound, bound: u64, key: Key, first: bool) -> Bound
    ensures { result ≡ bound_with best bound key first }
{
    if first || best.n < bound {
        Bound { n: bound, key }
    } else {
        best
    }
}
