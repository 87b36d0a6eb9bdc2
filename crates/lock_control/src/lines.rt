//! The lock table: the requests for each key.
ghost use Rattle.std.specs.Prelude.{◌≡◌, ◌++◌, map, None, IfOk, OnOk, OnErr};
ghost use Rattle.deneva_base.specs.Lists.{greatest_by};
ghost use Rattle.deneva_base.specs.declared.keys.Key.{Key};
ghost use Rattle.protocol_rules.specs.WaitDie.{none};
ghost use Rattle.lock_control.specs.Requests.{least_bar, is_stopped};
ghost use Rattle.lock_control.specs.Locks.{no_locks, bound_at, with_request, ended_in, granted_in};
ghost use Rattle.lock_control.specs.Tables.{locks_at, all_ended, all_granted, waiter_for, front_over, SetsLocks, SameLocks};

use crate::requests::{KeyLocks, Request};
use deneva_base::{Attempt, Key, Mode, NoMemory, Number};
use key_table::Table;
use std::alloc::Global;

/// A request that waits, with its key.
#[derive(Clone, Copy, Debug)]
pub(crate) struct Waiter {
    pub who: Attempt,
    pub stamp: u64,
    pub key: Key,
    pub mode: Mode,
}

#[derive(Drop)]
pub(crate) struct Lines {
    alloc: Global,
    lines: Table<Key, KeyLocks>,
}

impl Lines {
    pub fn new(alloc: Global) -> Lines
        ensures { (key : Key) → locks_at result key ≡ no_locks }
    {
        Lines {
            alloc,
            lines: Table::new(alloc),
        }
    }

    /// The owner of the least attempt that conflicts and whose stamp is below `below`.
    pub fn least_bar(&self, key: Key, asked: &Request, below: u64) -> Option<Request>
        ensures { result ≡ least_bar asked.now below None (locks_at self.now key).requests }
    {
        match self.lines.get(key) {
            Some(line) => line.least_bar(asked, below),
            None => None,
        }
    }

    /// Whether an owner conflicts, or a request that waits and has a greater stamp.
    pub fn is_stopped(&self, key: Key, asked: &Request) -> bool
        ensures { result ≡ is_stopped asked.now (locks_at self.now key).requests }
    {
        match self.lines.get(key) {
            Some(line) => line.is_stopped(asked),
            None => false,
        }
    }

    /// The greatest number under which an attempt committed whose access to the key conflicted with that of this one.
    pub fn bound(&self, key: Key, who: Attempt) -> u64
        ensures { result ≡ bound_at who (locks_at self.now key) }
    {
        match self.lines.get(key) {
            Some(line) => line.bound(who),
            None => 0,
        }
    }

    /// Adds a request for the key.
    pub fn add(&mut self, key: Key, request: Request) -> Result<(), NoMemory>
        ensures ok { OnOk result (SetsLocks self.old key (with_request request (locks_at self.old key)) self.new) }
        ensures err { OnErr result (SameLocks self.old self.new) }
    {
        let line = self.lines.slot(key)?;
        line.add(request)
    }

    /// Takes out the attempt's request for the key. Where it commits, its number counts for the votes to come.
    pub fn end(&mut self, key: Key, who: Attempt, number: Option<Number>)
        ensures { SetsLocks self.old key (ended_in who number (locks_at self.old key)) self.new }
    {
        if let Some(line) = self.lines.get_mut(key) {
            line.end(who, number);
        }
    }

    /// The greatest such number over these keys.
    pub fn bound_over(&self, keys: &[Key], who: Attempt) -> u64
        ensures { result ≡ greatest_by (λ key. bound_at who (locks_at self.now key)) keys.now }
    {
        let mut bound = 0;
        for key in keys {
            bound = bound.max(self.bound(*key, who));
        }
        bound
    }

    /// Takes out the attempt's requests for these keys.
    pub fn end_all(&mut self, keys: &[Key], who: Attempt, number: Option<Number>)
        ensures { (other : Key) → locks_at self.new other ≡ all_ended who number keys.now other (locks_at self.old other) }
    {
        for key in keys {
            self.end(*key, who, number);
        }
    }

    /// The requests that wait for these keys and are to be granted when an attempt ends, by key and then by falling stamp.
    pub fn front(&self, keys: &[Key], ended: Attempt) -> Result<Vec<Waiter>, NoMemory>
        ensures { IfOk result (λ front. front.items ≡ front_over ended self.now keys.now) }
    {
        let mut front = Vec::new(self.alloc);
        for key in keys {
            if let Some(line) = self.lines.get(*key) {
                push_waiters(&mut front, *key, &line.front(self.alloc, ended)?)?;
            }
        }
        Ok(front)
    }

    /// Whether none of the requests for these keys is to be granted when an attempt ends.
    pub fn is_idle(&self, keys: &[Key], ended: Attempt) -> bool
        ensures { result ≡ none (front_over ended self.now keys.now) }
    {
        for key in keys {
            if let Some(line) = self.lines.get(*key) {
                if !line.is_idle(ended) {
                    return false;
                }
            }
        }
        true
    }

    /// Grants the attempt's request for the key.
    pub fn wake(&mut self, key: Key, who: Attempt)
        ensures { SetsLocks self.old key (granted_in who (locks_at self.old key)) self.new }
    {
        if let Some(line) = self.lines.get_mut(key) {
            line.wake(who);
        }
    }

    /// Grants these requests.
    pub fn wake_all(&mut self, waiters: &[Waiter])
        ensures { (other : Key) → locks_at self.new other ≡ all_granted waiters.now other (locks_at self.old other) }
    {
        for waiter in waiters {
            self.wake(waiter.key, waiter.who);
        }
    }
}

/// Puts requests for a key at the end.
fn push_waiters(waiters: &mut Vec<Waiter>, key: Key, requests: &[Request]) -> Result<(), NoMemory>
    ensures { OnOk result (waiters.new.items ≡ waiters.old.items ++ map (waiter_for key) requests.now) }
{
    for request in requests {
        waiters.push(Waiter {
            who: request.who,
            stamp: request.stamp,
            key,
            mode: request.mode,
        })?;
    }
    Ok(())
}
