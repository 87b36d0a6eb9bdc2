//! What votes decide, and the stamps of nodes, on small tables.

use crate::ballots::{Decision, decide};
use crate::counters::stamp_of;
use deneva_base::{Attempt, Cause, Key, TxnId, Vote};
use server_core::Ballot;
use std::test::Fail;

const CAUSE: Cause = Cause::Held {
    key: Key {
        table: 0,
        a: 9,
        b: 0,
        c: 0,
    },
    by: Attempt {
        txn: TxnId(3),
        turn: 1,
    },
};

const fn ballot(part: u8, vote: Vote) -> Ballot {
    Ballot { part, vote }
}

#[test]
fn votes_decide(rt: HostRuntime) -> Result<(), Fail> {
    let wide = ballot(0, Vote::Yes { lo: 2, hi: 9 });
    let high = ballot(1, Vote::Yes { lo: 5, hi: 12 });
    let low = ballot(2, Vote::Yes { lo: 1, hi: 4 });
    let refusal = ballot(3, Vote::No(CAUSE));
    assert_eq!(rt; decide(&[wide]), Decision::Commit(2));
    assert_eq!(rt; decide(&[wide, high]), Decision::Commit(5));
    assert_eq!(rt; decide(&[low, wide]), Decision::Commit(2));
    assert_eq!(rt; decide(&[low, wide, high]), Decision::Abort);
    assert_eq!(rt; decide(&[refusal, wide]), Decision::Abort);
    assert_eq!(rt; decide(&[wide, refusal]), Decision::Abort);
    Ok(())
}

#[test]
fn stamps_name_their_node(rt: HostRuntime) -> Result<(), Fail> {
    for (counter, parts, part, stamp) in [
        (0, 1, 0, 1),
        (0, 4, 3, 4),
        (1, 4, 0, 5),
        (7, 16, 15, 128),
    ] {
        assert_eq!(rt; stamp_of(counter, parts, part), stamp);
    }
    Ok(())
}
