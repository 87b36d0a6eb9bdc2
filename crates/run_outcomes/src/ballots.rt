//! What the votes on an attempt come to.
ghost use Rattle.std.specs.Prelude.{◌≡◌, true, ◌==◌};
ghost use Rattle.std.specs.List.{list_any};
ghost use Rattle.server_core.specs.Aborts as aborts;
ghost use Rattle.server_core.specs.Coordinator as coordinator;
ghost use Rattle.server_core.specs.Received as received;
ghost use Rattle.run_outcomes.specs.Seen.{no_of, end_of};

use deneva_base::{Cause, Vote};
use server_core::{Ballot, greatest_lo, least_hi};

/// A No, and the partition that said it.
#[derive(Clone, Copy)]
pub(crate) struct No {
    pub(crate) part: u8,
    pub(crate) cause: Cause,
}

/// An end of a window.
#[derive(Clone, Copy)]
enum End {
    Lo,
    Hi,
}

impl End {
    /// This end of a vote's window. Without one the lower end is 0, and the upper one 2^63.
    fn of(self, vote: Vote) -> u64
        ensures { result ≡ end_of self vote }
    {
        match (self, vote) {
            (End::Lo, Vote::Yes { lo, .. }) => lo,
            (End::Hi, Vote::Yes { hi, .. }) => hi,
            (End::Lo, Vote::No(_)) => 0,
            (End::Hi, Vote::No(_)) => 1 << 63,
        }
    }
}

/// Whether the partition has voted.
fn has_voted(ballots: &[Ballot], part: u8) -> bool
    ensures { result ≡ list_any (λ b. b.part == part) ballots.now }
{
    match ballots {
        [] => false,
        [ballot, rest @ ..] => ballot.part == part || has_voted(rest, part),
    }
}

/// Whether each of these partitions has voted.
pub(crate) fn all_voted(ballots: &[Ballot], parts: &[u8]) -> bool
    ensures { result ≡ received.all_voted ballots.now parts.now }
{
    match parts {
        [] => true,
        [part, rest @ ..] => has_voted(ballots, *part) && all_voted(ballots, rest),
    }
}

/// The No of the lesser partition.
fn lesser_no(best: Option<No>, ballot: Ballot) -> Option<No>
    ensures { no_of result ≡ coordinator.no_in (no_of best) ballot.part ballot.vote }
{
    let part = ballot.part;
    match (ballot.vote, best) {
        (Vote::Yes { .. }, best) => best,
        (Vote::No(_), Some(least)) if least.part <= part => Some(least),
        (Vote::No(cause), _) => Some(No { part, cause }),
    }
}

/// The No of the least partition that said one.
pub(crate) fn first_no(best: Option<No>, ballots: &[Ballot]) -> Option<No>
    ensures { no_of result ≡ coordinator.first_no (no_of best) ballots.now }
{
    match ballots {
        [] => best,
        [ballot, rest @ ..] => first_no(lesser_no(best, *ballot), rest),
    }
}

/// The lesser of two partitions.
fn lesser(part: u8, other: Option<u8>) -> u8
    ensures { aborts.lesser true part other ≡ Some result }
{
    match other {
        Some(other) if other <= part => other,
        _ => part,
    }
}

/// The least partition that voted this end.
fn least_part(end: End, number: u64, ballots: &[Ballot]) -> Option<u8>
    ensures { result ≡ aborts.least_part (end_of end) number ballots.now }
{
    let [ballot, rest @ ..] = ballots else {
        return None;
    };
    let others = least_part(end, number, rest);
    if end.of(ballot.vote) == number {
        Some(lesser(ballot.part, others))
    } else {
        others
    }
}

/// Why an attempt is aborted on these votes, whose windows do not meet.
pub(crate) fn apart_cause(ballots: &[Ballot]) -> Cause
    ensures { result ≡ aborts.apart_of ballots.now }
{
    let lo = greatest_lo(ballots);
    let hi = least_hi(ballots);
    Cause::Apart {
        lo,
        lo_part: least_part(End::Lo, lo, ballots).unwrap_or(0),
        hi,
        hi_part: least_part(End::Hi, hi, ballots).unwrap_or(0),
    }
}
