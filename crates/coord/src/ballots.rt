//! What the votes on an attempt come to.
ghost use Rattle.std.specs.Prelude.{◌≡◌, None, reverse};
ghost use Rattle.std.specs.List.{list_any};
ghost use Rattle.deneva_base.specs.declared.numbers.Attempt.{Attempt};
ghost use Rattle.server_core.specs.Coordinator.{decision, first_no};
ghost use Rattle.coord.specs.Ballots.{message_of, says_no};

use deneva_base::Vote;
use server_core::{Ballot, greatest_lo, least_hi};

/// How an attempt ends: by a commit with this number, or by an abort.
#[derive(Clone, Copy, Debug, PartialEq, Eq)]
pub enum Decision {
    Commit(u64),
    Abort,
}

/// Whether one of the votes is a No.
fn any_says_no(ballots: &[Ballot]) -> bool
    ensures { result ≡ list_any says_no ballots.now }
{
    for ballot in ballots {
        if let Vote::No(_) = ballot.vote {
            return true;
        }
    }
    false
}

/// What these votes decide, the oldest first: the least number in all windows, unless one is a No or none is.
pub(crate) fn decide(ballots: &[Ballot]) -> Decision
    ensures { (who : Attempt) → decision who (reverse ballots.now) (first_no None (reverse ballots.now)) ≡ message_of who result }
{
    if any_says_no(ballots) {
        return Decision::Abort;
    }
    let lo = greatest_lo(ballots);
    if lo <= least_hi(ballots) {
        Decision::Commit(lo)
    } else {
        Decision::Abort
    }
}
