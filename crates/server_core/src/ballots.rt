//! Votes on an attempt, and where their windows end.
ghost use Rattle.std.specs.Prelude.{◌≡◌};
ghost use Rattle.server_core.specs.Coordinator.{greatest_lo, least_hi};

use deneva_base::Vote;

/// A vote, and the partition that it came from.
#[derive(Clone, Copy, Debug, PartialEq, Eq)]
pub struct Ballot {
    pub part: u8,
    pub vote: Vote,
}

/// The least upper end where there is no window.
const NO_END: u64 = 1 << 63;

/// The greatest lower end of the windows, and 0 without one.
pub fn greatest_lo(ballots: &[Ballot]) -> u64
    ensures { result ≡ greatest_lo ballots.now }
{
    let mut greatest = 0;
    for ballot in ballots {
        if let Vote::Yes { lo, .. } = ballot.vote {
            greatest = lo.max(greatest);
        }
    }
    greatest
}

/// The least upper end of the windows, and 2^63 without one.
pub fn least_hi(ballots: &[Ballot]) -> u64
    ensures { result ≡ least_hi ballots.now }
{
    let mut least = NO_END;
    for ballot in ballots {
        if let Vote::Yes { hi, .. } = ballot.vote {
            least = hi.min(least);
        }
    }
    least
}
