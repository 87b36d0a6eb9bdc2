//! Whom the end of an attempt lets go: the waiting accesses to its keys before which nobody else writes.
ghost use Rattle.std.specs.Prelude.{◌≡◌, ◌++◌, map, filter, IfOk, OnOk};
ghost use Rattle.std.specs.List.{list_any};
ghost use Rattle.protocol_rules.specs.WaitDie.{none};
ghost use Rattle.stamp_control.specs.Fronts.{goes, waiter_for, front_over};

use deneva_base::{Attempt, Key, NoMemory};
use stamp_lines::{Accesses, Request, Waiter};
use std::alloc::Global;

/// Whether a request waits, and the first writer other than the ended attempt does not stand before it.
fn goes(request: &Request, first: Option<u64>) -> bool
    ensures { result ≡ goes first request.now }
{
    match first {
        Some(stamp) => request.waits && request.stamp <= stamp,
        None => request.waits,
    }
}

fn any_goes(requests: &[Request], first: Option<u64>) -> bool
    ensures { result ≡ list_any (goes first) requests.now }
{
    for request in requests {
        if goes(request, first) {
            return true;
        }
    }
    false
}

fn waiter_for(key: Key, request: &Request) -> Waiter
    ensures { result ≡ waiter_for key request.now }
{
    Waiter {
        who: request.who,
        stamp: request.stamp,
        key,
        mode: request.mode,
    }
}

/// Puts those of the requests for a key that go at the end.
fn push_front(
    front: &mut Vec<Waiter>,
    key: Key,
    requests: &[Request],
    first: Option<u64>,
) -> Result<(), NoMemory>
    ensures { OnOk result (front.new.items ≡ front.old.items ++ map (waiter_for key) (filter (goes first) requests.now)) }
{
    for request in requests {
        if goes(request, first) {
            front.push(waiter_for(key, request))?;
        }
    }
    Ok(())
}

/// The accesses to these keys that the end of an attempt lets go, by key and then by rising stamp.
pub(crate) fn front_of(
    alloc: Global,
    accesses: &Accesses,
    keys: &[Key],
    ended: Attempt,
) -> Result<Vec<Waiter>, NoMemory>
    ensures { IfOk result (λ front. front.items ≡ front_over ended accesses.now keys.now) }
{
    let mut front = Vec::new(alloc);
    for key in keys {
        let first = accesses.first_writer(*key, 0, ended);
        push_front(&mut front, *key, accesses.requests(*key), first)?;
    }
    Ok(front)
}

/// Whether there is none.
pub(crate) fn is_idle(accesses: &Accesses, keys: &[Key], ended: Attempt) -> bool
    ensures { result ≡ none (front_over ended accesses.now keys.now) }
{
    for key in keys {
        let first = accesses.first_writer(*key, 0, ended);
        if any_goes(accesses.requests(*key), first) {
            return false;
        }
    }
    true
}
