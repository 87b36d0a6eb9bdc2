//! A node of each lock protocol, and the messages of a transaction until its votes.
ghost use Rattle.std.specs.Prelude.{◌≡◌, ◌++◌, ◌∷◌, [], IfOk};
ghost use Rattle.deneva_base.specs.declared.config.Protocol.TheVariants.{NoWait, WaitDie};
ghost use Rattle.server_core.specs.declared.messages.Msg.TheVariants.{Yes, No};
ghost use Rattle.node_trials.specs.Trials.{FitInTurn};
ghost use Rattle.node_trials.specs.Works.{trial_role, first_attempt, held, sent, granted_step, granted_twice, asked_steps, refused_steps, meeting_steps, apart_steps};

use crate::steps::{Step, tell};
use crate::works::{row, work};
use deneva_base::{Attempt, Cause, Config, Key, NoMemory, Number, Protocol, TxnId};
use lock_control::Locks;
use node_core::Node;
use server_core::{Msg, Outbox, Server};
use std::alloc::Global;
use txn_program::ycsb_key_of;

/// The first attempt of transaction 1.
pub(crate) const WHO: Attempt = Attempt {
    txn: TxnId(1),
    turn: 1,
};

/// The second attempt of transaction 1.
pub(crate) const AGAIN: Attempt = Attempt {
    txn: TxnId(1),
    turn: 2,
};

pub(crate) const HELD: Cause = Cause::Held {
    key: Key {
        table: 0,
        a: 0,
        b: 0,
        c: 0,
    },
    by: Attempt {
        txn: TxnId(3),
        turn: 1,
    },
};

pub(crate) fn yes(part: u8, lo: u64, hi: u64) -> Msg
    ensures { result ≡ Yes first_attempt part lo hi }
{
    Msg::Yes {
        who: WHO,
        part,
        lo,
        hi,
    }
}

pub(crate) fn no(part: u8) -> Msg
    ensures { result ≡ No first_attempt part held }
{
    Msg::No {
        who: WHO,
        part,
        cause: HELD,
    }
}

fn config(protocol: Protocol) -> Config
    ensures { result ≡ record { protocol = protocol; parts = 2; attempts = 2; limit = 1 } }
{
    Config {
        protocol,
        parts: 2,
        attempts: 2,
        limit: 1,
    }
}

/// What node 0 of two says under NO_WAIT.
pub(crate) fn mails_without_waits(alloc: Global, steps: &[Step]) -> Result<Outbox, NoMemory>
    requires { FitInTurn (trial_role NoWait) [] steps.now }
{
    let work = work(alloc)?;
    let mut node = Node::<Locks<0>>::begin(alloc, config(Protocol::NoWait), 0, &work)?;
    let mut out = Outbox::new(alloc);
    tell(&mut node, steps, &mut out)?;
    Ok(out)
}

/// What node 0 of two says under WAIT_DIE.
pub(crate) fn mails_with_waits(alloc: Global, steps: &[Step]) -> Result<Outbox, NoMemory>
    requires { FitInTurn (trial_role WaitDie) [] steps.now }
{
    let work = work(alloc)?;
    let mut node = Node::<Locks<1>>::begin(alloc, config(Protocol::WaitDie), 0, &work)?;
    let mut out = Outbox::new(alloc);
    tell(&mut node, steps, &mut out)?;
    Ok(out)
}

/// The loaded row of this number is granted.
fn grant_step(alloc: Global, from: u8, number: u32) -> Result<Step, NoMemory>
    ensures { IfOk result (λ s. s ≡ granted_step from number) }
{
    let keyed = row(alloc, number)?;
    let version = Number { n: 0, id: TxnId(0) };
    let msg = Msg::Granted {
        who: WHO,
        key: keyed.key,
        row: keyed.row,
        version,
        bound: 0,
    };
    Ok(Step { from, msg })
}

/// Transaction 1 is started, and its first two accesses are granted.
fn two_grants(alloc: Global) -> Result<Vec<Step>, NoMemory>
    ensures { IfOk result (λ steps. steps.items ≡ granted_twice) }
{
    let mut steps = Vec::new(alloc);
    steps.push(Step {
        from: 0,
        msg: Msg::Start { who: WHO },
    })?;
    steps.push(grant_step(alloc, 0, 0)?)?;
    steps.push(grant_step(alloc, 1, 1)?)?;
    Ok(steps)
}

/// The third access of transaction 1 is refused.
pub(crate) fn refusal_steps(alloc: Global) -> Result<Vec<Step>, NoMemory>
    ensures { IfOk result (λ steps. steps.items ≡ refused_steps) }
{
    let mut steps = two_grants(alloc)?;
    let msg = Msg::Refused {
        who: WHO,
        key: ycsb_key_of(2),
        cause: HELD,
    };
    steps.push(Step { from: 0, msg })?;
    Ok(steps)
}

/// Transaction 1 has all grants, and partitions 0 and 1 vote so.
pub(crate) fn vote_steps(alloc: Global, first: Msg, second: Msg) -> Result<Vec<Step>, NoMemory>
    ensures { IfOk result (λ steps. steps.items ≡ asked_steps ++ sent 0 first ∷ sent 1 second ∷ []) }
{
    let mut steps = two_grants(alloc)?;
    steps.push(grant_step(alloc, 0, 2)?)?;
    steps.push(Step {
        from: 0,
        msg: first,
    })?;
    steps.push(Step {
        from: 1,
        msg: second,
    })?;
    Ok(steps)
}

/// The windows meet from 5 to 9, and both partitions tell that they have committed.
pub(crate) fn meeting_steps(alloc: Global) -> Result<Vec<Step>, NoMemory>
    ensures { IfOk result (λ steps. steps.items ≡ asked_steps ++ meeting_steps) }
{
    let mut steps = vote_steps(alloc, yes(0, 1, 9), yes(1, 5, 12))?;
    let msg = Msg::Done { who: WHO, part: 0 };
    steps.push(Step { from: 0, msg })?;
    let msg = Msg::Done { who: WHO, part: 1 };
    steps.push(Step { from: 1, msg })?;
    Ok(steps)
}

/// The windows do not meet, both partitions tell that they have aborted, and the second attempt starts.
pub(crate) fn apart_steps(alloc: Global) -> Result<Vec<Step>, NoMemory>
    ensures { IfOk result (λ steps. steps.items ≡ asked_steps ++ apart_steps) }
{
    let mut steps = vote_steps(alloc, yes(0, 1, 4), yes(1, 5, 9))?;
    let msg = Msg::Undone { who: WHO, part: 0 };
    steps.push(Step { from: 0, msg })?;
    let msg = Msg::Undone { who: WHO, part: 1 };
    steps.push(Step { from: 1, msg })?;
    let msg = Msg::Start { who: AGAIN };
    steps.push(Step { from: 0, msg })?;
    Ok(steps)
}
