//! What one node says, worked out by hand.

ghost use Rattle.std.specs.Prelude.{◌≡◌};
ghost use Rattle.deneva_base.specs.declared.keys.Mode.TheVariants.{Update};
ghost use Rattle.txn_program.specs.Transactions.{ycsb_key};
ghost use Rattle.server_core.specs.declared.messages.Msg.TheVariants.{Ask};

use crate::scripts::{
    AGAIN, WHO, apart_steps, mails_with_waits, mails_without_waits, meeting_steps, no,
    refusal_steps, vote_steps, yes,
};
use crate::steps::Step;
use crate::works::row;
use deneva_base::{
    Attempt, Bound, ByteList, Cell, CellList, Keyed, Mode, NoMemory, Number, Row, RowList, TxnId,
};
use server_core::{Mail, Msg, Outbox};
use std::alloc::Global;
use std::test::Fail;
use txn_program::ycsb_key_of;

/// The first attempt of transaction 2.
const OTHER: Attempt = Attempt {
    txn: TxnId(2),
    turn: 1,
};

fn ask(who: Attempt, stamp: u64, number: u32) -> Msg
    ensures { result ≡ Ask who stamp (ycsb_key number) Update }
{
    Msg::Ask {
        who,
        stamp,
        key: ycsb_key_of(number),
        mode: Mode::Update,
    }
}

fn mail(to: u8, msg: Msg) -> Mail {
    Mail { from: 0, to, msg }
}

/// What transaction 1 writes to the rows of these numbers.
fn written_rows(alloc: Global, numbers: &[u32]) -> Result<RowList, NoMemory> {
    let mut rows = RowList::new(alloc);
    for number in numbers {
        let mut cells = CellList::new(alloc);
        cells.push(Cell::Text(ByteList::from_bytes(alloc, b"x")?))?;
        let row = Row::of(alloc, cells)?;
        rows.push(Keyed {
            key: ycsb_key_of(*number),
            row,
        })?;
    }
    Ok(rows)
}

fn prepare(alloc: Global, numbers: &[u32]) -> Result<Msg, NoMemory> {
    Ok(Msg::Prepare {
        who: WHO,
        bound: Bound {
            n: 0,
            key: ycsb_key_of(0),
        },
        writes: written_rows(alloc, numbers)?,
        appends: RowList::new(alloc),
    })
}

/// A grant of the row of key 0, as it was loaded.
fn initial_grant(alloc: Global, who: Attempt) -> Result<Msg, NoMemory> {
    let keyed = row(alloc, 0)?;
    Ok(Msg::Granted {
        who,
        key: keyed.key,
        row: keyed.row,
        version: Number { n: 0, id: TxnId(0) },
        bound: 0,
    })
}

/// What the node says until transaction 1 is asked for its votes.
fn asked_mails(alloc: Global) -> Result<Vec<Mail>, NoMemory> {
    let mut mails = Vec::new(alloc);
    mails.push(mail(0, ask(WHO, 1, 0)))?;
    mails.push(mail(1, ask(WHO, 1, 1)))?;
    mails.push(mail(0, ask(WHO, 1, 2)))?;
    mails.push(mail(0, prepare(alloc, &[0, 2])?))?;
    mails.push(mail(1, prepare(alloc, &[1])?))?;
    Ok(mails)
}

/// The same, and then that it is aborted.
fn aborted_mails(alloc: Global) -> Result<Vec<Mail>, NoMemory> {
    let mut mails = asked_mails(alloc)?;
    mails.push(mail(0, Msg::Abort { who: WHO }))?;
    mails.push(mail(1, Msg::Abort { who: WHO }))?;
    Ok(mails)
}

fn has_mails(out: &Outbox, mails: &[Mail]) -> bool {
    if out.len() != mails.len() {
        return false;
    }
    for (index, mail) in mails.iter().enumerate() {
        if out.get(index) != mail {
            return false;
        }
    }
    true
}

#[test]
fn windows_that_meet_commit_with_the_least_number(rt: HostRuntime) -> Result<(), Fail> {
    let alloc = rt.alloc();
    let steps = meeting_steps(alloc)?;
    let number = Number { n: 5, id: TxnId(1) };
    let next = Attempt {
        txn: TxnId(3),
        turn: 1,
    };
    let mut mails = asked_mails(alloc)?;
    mails.push(mail(0, Msg::Commit { who: WHO, number }))?;
    mails.push(mail(1, Msg::Commit { who: WHO, number }))?;
    mails.push(mail(0, Msg::Start { who: next }))?;
    assert!(rt; has_mails(&mails_without_waits(alloc, &steps)?, &mails));
    Ok(())
}

#[test]
fn windows_apart_abort_and_a_restart_keeps_its_stamp(rt: HostRuntime) -> Result<(), Fail> {
    let alloc = rt.alloc();
    let steps = apart_steps(alloc)?;
    let mut mails = aborted_mails(alloc)?;
    mails.push(mail(0, Msg::Start { who: AGAIN }))?;
    mails.push(mail(0, ask(AGAIN, 1, 0)))?;
    assert!(rt; has_mails(&mails_without_waits(alloc, &steps)?, &mails));
    Ok(())
}

#[test]
fn one_no_aborts(rt: HostRuntime) -> Result<(), Fail> {
    let alloc = rt.alloc();
    let steps = vote_steps(alloc, yes(0, 1, 9), no(1))?;
    assert!(rt; has_mails(&mails_without_waits(alloc, &steps)?, &aborted_mails(alloc)?));
    Ok(())
}

#[test]
fn two_noes_abort(rt: HostRuntime) -> Result<(), Fail> {
    let alloc = rt.alloc();
    let steps = vote_steps(alloc, no(0), no(1))?;
    assert!(rt; has_mails(&mails_without_waits(alloc, &steps)?, &aborted_mails(alloc)?));
    Ok(())
}

#[test]
fn a_refusal_aborts_where_it_asked(rt: HostRuntime) -> Result<(), Fail> {
    let alloc = rt.alloc();
    let steps = refusal_steps(alloc)?;
    let mut mails = Vec::new(alloc);
    mails.push(mail(0, ask(WHO, 1, 0)))?;
    mails.push(mail(1, ask(WHO, 1, 1)))?;
    mails.push(mail(0, ask(WHO, 1, 2)))?;
    mails.push(mail(0, Msg::Abort { who: WHO }))?;
    mails.push(mail(1, Msg::Abort { who: WHO }))?;
    assert!(rt; has_mails(&mails_without_waits(alloc, &steps)?, &mails));
    Ok(())
}

/// Transaction 1 holds the row, the older transaction 2 waits for it, and is granted it when 1 aborts.
#[test]
fn an_older_transaction_waits_and_is_woken(rt: HostRuntime) -> Result<(), Fail> {
    let alloc = rt.alloc();
    let steps = [
        Step {
            from: 0,
            msg: ask(WHO, 20, 0),
        },
        Step {
            from: 1,
            msg: ask(OTHER, 10, 0),
        },
        Step {
            from: 0,
            msg: Msg::Abort { who: WHO },
        },
    ];
    let mut mails = Vec::new(alloc);
    mails.push(mail(0, initial_grant(alloc, WHO)?))?;
    mails.push(mail(0, Msg::Undone { who: WHO, part: 0 }))?;
    mails.push(mail(1, initial_grant(alloc, OTHER)?))?;
    assert!(rt; has_mails(&mails_with_waits(alloc, &steps)?, &mails));
    Ok(())
}
