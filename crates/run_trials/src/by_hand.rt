//! The run of `meeting` by FIFO under NO_WAIT, with one transaction open at each of two nodes and two attempts. Each entry
//! is worked out from the rules, not taken from a run.
//!
//! Key 2 lies at partition 0, keys 1 and 3 at partition 1. So node 0 is the home of transaction 1, whose participants are
//! 0 and 1, and node 1 is that of transaction 2, whose participant is 1.
//!
//! Mails are handled in the order in which they were said. In the comments 1.2 is the second attempt of transaction 1, and
//! "on 4" is said of mails that the node of entry 4 said when it handled that entry.

use crate::works::{keyed_row, row_of};
use deneva_base::{Attempt, Bound, Cause, Mode, Number, RowList, TxnId};
use server_core::{Entry, History, Msg};
use std::alloc::Global;
use std::test::Fail;
use txn_program::ycsb_key_of;

/// The first attempt of transaction 1, which is refused.
const FIRST: Attempt = Attempt {
    txn: TxnId(1),
    turn: 1,
};

/// The second attempt of transaction 1.
const AGAIN: Attempt = Attempt {
    txn: TxnId(1),
    turn: 2,
};

/// The attempt of transaction 2.
const OTHER: Attempt = Attempt {
    txn: TxnId(2),
    turn: 1,
};

/// The number of a loaded row.
const LOADED: Number = Number { n: 0, id: TxnId(0) };

/// The greatest upper end.
const TOP: u64 = 1 << 63;

fn entry(place: u64, from: u8, node: u8, msg: Msg) -> Entry {
    Entry {
        place,
        from,
        node,
        msg,
    }
}

fn start(who: Attempt) -> Msg {
    Msg::Start { who }
}

/// Node p gives its c-th stamp, where c counts from 0, as 2 c + p + 1: 1 at node 0, and 2 at node 1.
fn ask(who: Attempt, stamp: u64, key: u32, mode: Mode) -> Msg {
    let key = ycsb_key_of(key);
    Msg::Ask {
        who,
        stamp,
        key,
        mode,
    }
}

/// The bound is 0 under every protocol but MAAT.
fn grant(alloc: Global, who: Attempt, key: u32, letter: u8, version: Number) -> Result<Msg, Fail> {
    let key = ycsb_key_of(key);
    let row = row_of(alloc, letter)?;
    Ok(Msg::Granted {
        who,
        key,
        row,
        version,
        bound: 0,
    })
}

/// Writes one letter. The bound is 0, which the first access gave.
fn prepare(alloc: Global, who: Attempt, first_key: u32, key: u32, letter: u8) -> Result<Msg, Fail> {
    let bound = Bound {
        n: 0,
        key: ycsb_key_of(first_key),
    };
    let mut writes = RowList::new(alloc);
    writes.push(keyed_row(alloc, key, letter)?)?;
    Ok(Msg::Prepare {
        who,
        bound,
        writes,
        appends: RowList::new(alloc),
    })
}

fn yes(who: Attempt, part: u8, lo: u64) -> Msg {
    Msg::Yes {
        who,
        part,
        lo,
        hi: TOP,
    }
}

fn commit(who: Attempt, n: u64) -> Msg {
    let number = Number { n, id: who.txn };
    Msg::Commit { who, number }
}

fn abort(who: Attempt) -> Msg {
    Msg::Abort { who }
}

fn done_message(who: Attempt, part: u8) -> Msg {
    Msg::Done { who, part }
}

fn undone_message(who: Attempt, part: u8) -> Msg {
    Msg::Undone { who, part }
}

/// Both transactions begin, and the first access of each is granted.
fn begin_both(alloc: Global, list: &mut History) -> Result<(), Fail> {
    // In flight at the start: a Start of each node's first home transaction, node 0's first.
    list.push(entry(0, 0, 0, start(FIRST)))?;
    list.push(entry(1, 1, 1, start(OTHER)))?;
    // On 0 and 1: each asks for its first key, with the first stamp of its node.
    list.push(entry(2, 0, 0, ask(FIRST, 1, 2, Mode::Update)))?;
    list.push(entry(3, 1, 1, ask(OTHER, 2, 1, Mode::Update)))?;
    // On 2 and 3: nobody holds these keys, so the loaded rows are granted.
    let row = grant(alloc, FIRST, 2, b'b', LOADED)?;
    list.push(entry(4, 0, 0, row))?;
    let row = grant(alloc, OTHER, 1, b'a', LOADED)?;
    list.push(entry(5, 1, 1, row))?;
    Ok(())
}

/// Transaction 1 is refused the key that transaction 2 holds, which is granted its last access.
fn refuse_one(alloc: Global, list: &mut History) -> Result<(), Fail> {
    // On 4 and 5: each asks for its second key, at partition 1.
    list.push(entry(6, 0, 1, ask(FIRST, 1, 1, Mode::Update)))?;
    list.push(entry(7, 1, 1, ask(OTHER, 2, 3, Mode::Read)))?;
    // On 6: 2.1 holds key 1 since 3, and both would write it.
    let key = ycsb_key_of(1);
    let cause = Cause::Held { key, by: OTHER };
    let refusal = Msg::Refused {
        who: FIRST,
        key,
        cause,
    };
    list.push(entry(8, 1, 0, refusal))?;
    // On 7: nobody holds key 3.
    let row = grant(alloc, OTHER, 3, b'c', LOADED)?;
    list.push(entry(9, 1, 1, row))?;
    Ok(())
}

/// The first attempt of transaction 1 ends where it asked, while transaction 2 is voted on.
fn abort_one(alloc: Global, list: &mut History) -> Result<(), Fail> {
    // On 8: 1.1 asked at both partitions, the second time in vain.
    list.push(entry(10, 0, 0, abort(FIRST)))?;
    list.push(entry(11, 0, 1, abort(FIRST)))?;
    // On 9: 2.1 has all its grants. It writes key 1 alone.
    list.push(entry(12, 1, 1, prepare(alloc, OTHER, 1, 1, b'r')?))?;
    // On 10 and 11: 13 does not close the attempt, 14 does.
    list.push(entry(13, 0, 0, undone_message(FIRST, 0)))?;
    list.push(entry(14, 1, 0, undone_message(FIRST, 1)))?;
    // On 12: nothing was committed at partition 1 before, so the vote is [1 + 0, 2^63].
    list.push(entry(15, 1, 1, yes(OTHER, 1, 1)))?;
    Ok(())
}

/// The second attempt of transaction 1 begins, and transaction 2 commits.
fn begin_again(alloc: Global, list: &mut History) -> Result<(), Fail> {
    // On 14, as two attempts are allowed.
    list.push(entry(16, 0, 0, start(AGAIN)))?;
    // On 15: partition 1 is the one participant. The number is the greatest lower end.
    list.push(entry(17, 1, 1, commit(OTHER, 1)))?;
    // On 16: the stamp is that of the first attempt.
    list.push(entry(18, 0, 0, ask(AGAIN, 1, 2, Mode::Update)))?;
    // On 17: transaction 2 is over. Node 1 has no other, so nothing is said on 19.
    list.push(entry(19, 1, 1, done_message(OTHER, 1)))?;
    // On 18: nobody holds key 2 since 10, and nothing was written to it.
    let row = grant(alloc, AGAIN, 2, b'b', LOADED)?;
    list.push(entry(20, 0, 0, row))?;
    // On 20: one access is left.
    list.push(entry(21, 0, 1, ask(AGAIN, 1, 1, Mode::Update)))?;
    // On 21: nobody holds key 1 since 17, which wrote it with the number (1, 2).
    let version = Number { n: 1, id: TxnId(2) };
    let row = grant(alloc, AGAIN, 1, b'r', version)?;
    list.push(entry(22, 1, 0, row))?;
    Ok(())
}

/// Transaction 1 commits at both partitions.
fn commit_again(alloc: Global, list: &mut History) -> Result<(), Fail> {
    // On 22: to each participant what is written there.
    list.push(entry(23, 0, 0, prepare(alloc, AGAIN, 2, 2, b'p')?))?;
    list.push(entry(24, 0, 1, prepare(alloc, AGAIN, 2, 1, b'q')?))?;
    // On 23: nothing was committed at partition 0. On 24: 2.1 met 1.2 on key 1 and has the number 1, so the vote is
    // [1 + 1, 2^63].
    list.push(entry(25, 0, 0, yes(AGAIN, 0, 1)))?;
    list.push(entry(26, 1, 0, yes(AGAIN, 1, 2)))?;
    // On 26, the last vote: the greatest lower end is 2.
    list.push(entry(27, 0, 0, commit(AGAIN, 2)))?;
    list.push(entry(28, 0, 1, commit(AGAIN, 2)))?;
    // On 27 and 28: transaction 1 is over on 30. Node 0 has no other, so nothing is in flight then.
    list.push(entry(29, 0, 0, done_message(AGAIN, 0)))?;
    list.push(entry(30, 1, 0, done_message(AGAIN, 1)))?;
    Ok(())
}

/// All entries of the run.
pub(crate) fn entries(alloc: Global) -> Result<History, Fail> {
    let mut list = History::new(alloc);
    begin_both(alloc, &mut list)?;
    refuse_one(alloc, &mut list)?;
    abort_one(alloc, &mut list)?;
    begin_again(alloc, &mut list)?;
    commit_again(alloc, &mut list)?;
    Ok(list)
}
