//! What came for an attempt among the messages that its home has handled, the newest first.
ghost use Rattle.std.specs.Prelude.{◌≡◌, IfOk, map, reverse, length, ◌==◌};
ghost use Rattle.std.specs.List.{list_any};
ghost use Rattle.server_core.specs.Aborts as aborts;
ghost use Rattle.server_core.specs.AttemptEnds.{dones_for, undones_for};
ghost use Rattle.server_core.specs.Received as received;
ghost use Rattle.server_core.specs.Received.{all_closed};
ghost use Rattle.run_outcomes.specs.Seen.{refusal_of};

use deneva_base::{Attempt, Cause, Key, NoMemory, Row, Vote};
use server_core::{Ballot, Msg};
use std::alloc::Global;

/// A refused access, and why it was refused.
#[derive(Clone, Copy)]
pub(crate) struct Refusal {
    pub(crate) key: Key,
    pub(crate) cause: Cause,
}

/// Whether the attempt was begun.
pub(crate) fn has_started(who: Attempt, messages: &[&Msg]) -> bool
    ensures { result ≡ received.started_for who (map (λ m. m.now) messages.now) }
{
    let [msg, before @ ..] = messages else {
        return false;
    };
    let here = match msg {
        Msg::Start { who: by } => *by == who,
        _ => false,
    };
    here || has_started(who, before)
}

/// Whether an access of the attempt was refused.
pub(crate) fn is_refused(who: Attempt, messages: &[&Msg]) -> bool
    ensures { result ≡ received.refused_for who (map (λ m. m.now) messages.now) }
{
    let [msg, before @ ..] = messages else {
        return false;
    };
    let here = match msg {
        Msg::Refused { who: by, .. } => *by == who,
        _ => false,
    };
    here || is_refused(who, before)
}

/// The newest refusal of the attempt.
pub(crate) fn refusal_for(who: Attempt, messages: &[&Msg]) -> Option<Refusal>
    ensures { refusal_of result ≡ aborts.refusal_for who (map (λ m. m.now) messages.now) }
{
    let [msg, before @ ..] = messages else {
        return None;
    };
    match **msg {
        Msg::Refused {
            who: by,
            key,
            cause,
        } if by == who => Some(Refusal { key, cause }),
        _ => refusal_for(who, before),
    }
}

/// The rows granted to the attempt, in the order of its accesses.
pub(crate) fn grants_for<'h>(
    alloc: Global,
    who: Attempt,
    messages: &[&'h Msg],
) -> Result<Vec<&'h Row>, NoMemory>
    ensures { IfOk result (λ v. map (λ r. r.now) v.items ≡ map (λ r. r.row) (reverse (received.grants_for who (map (λ m. m.now) messages.now)))) }
{
    let [msg, before @ ..] = messages else {
        return Ok(Vec::new(alloc));
    };
    let mut all = grants_for(alloc, who, before)?;
    match msg {
        Msg::Granted { who: by, row, .. } if *by == who => {
            all.push(row)?;
        }
        _ => {}
    }
    Ok(all)
}

/// The votes on the attempt, the newest first.
pub(crate) fn votes_for(
    alloc: Global,
    who: Attempt,
    messages: &[&Msg],
) -> Result<Vec<Ballot>, NoMemory>
    ensures { IfOk result (λ v. v.items ≡ received.votes_for who (map (λ m. m.now) messages.now)) }
{
    let [msg, before @ ..] = messages else {
        return Ok(Vec::new(alloc));
    };
    let mut all = votes_for(alloc, who, before)?;
    match **msg {
        Msg::Yes {
            who: by,
            part,
            lo,
            hi,
        } if by == who => {
            let vote = Vote::Yes { lo, hi };
            all.insert(0, Ballot { part, vote })?;
        }
        Msg::No {
            who: by,
            part,
            cause,
        } if by == who => {
            let vote = Vote::No(cause);
            all.insert(0, Ballot { part, vote })?;
        }
        _ => {}
    }
    Ok(all)
}

/// Whether the attempt has committed at the partition.
fn has_done(who: Attempt, part: u8, messages: &[&Msg]) -> bool
    ensures { result ≡ list_any (λ c. c == part) (dones_for who (map (λ m. m.now) messages.now)) }
{
    let [msg, before @ ..] = messages else {
        return false;
    };
    let here = match msg {
        Msg::Done {
            who: by,
            part: from,
        } => *by == who && *from == part,
        _ => false,
    };
    here || has_done(who, part, before)
}

/// Whether the attempt has committed at each of these partitions.
pub(crate) fn all_done(who: Attempt, parts: &[u8], messages: &[&Msg]) -> bool
    ensures { result ≡ all_closed (dones_for who (map (λ m. m.now) messages.now)) parts.now }
{
    match parts {
        [] => true,
        [part, rest @ ..] => has_done(who, *part, messages) && all_done(who, rest, messages),
    }
}

/// Whether the attempt has aborted at the partition.
fn has_undone(who: Attempt, part: u8, messages: &[&Msg]) -> bool
    ensures { result ≡ list_any (λ c. c == part) (undones_for who (map (λ m. m.now) messages.now)) }
{
    let [msg, before @ ..] = messages else {
        return false;
    };
    let here = match msg {
        Msg::Undone {
            who: by,
            part: from,
        } => *by == who && *from == part,
        _ => false,
    };
    here || has_undone(who, part, before)
}

/// Whether the attempt has aborted at each of these partitions.
pub(crate) fn all_undone(who: Attempt, parts: &[u8], messages: &[&Msg]) -> bool
    ensures { result ≡ all_closed (undones_for who (map (λ m. m.now) messages.now)) parts.now }
{
    match parts {
        [] => true,
        [part, rest @ ..] => has_undone(who, *part, messages) && all_undone(who, rest, messages),
    }
}
