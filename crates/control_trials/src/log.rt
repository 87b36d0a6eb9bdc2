//! What is known of the calls that a control was asked, by which it is told whether one more meets its conditions.
ghost use Rattle.std.specs.Prelude.{◌≡◌, ◌<◌, ◌^◌, [], ◌∷◌, List, Bool, IsTrue, OnOk, not, ◌&&◌, ◌==◌, nat_le};
ghost use Rattle.std.specs.List.{list_any};
ghost use Rattle.deneva_base.specs.declared.causes.Bound.{Bound};
ghost use Rattle.deneva_base.specs.declared.rows.Keyed.{Keyed};
ghost use Rattle.deneva_base.specs.Keys.{key_eq, attempt_eq};
ghost use Rattle.deneva_base.specs.Modes.{writes};
ghost use Rattle.deneva_base.specs.Rows.{Rows};
ghost use Rattle.protocol_rules.specs.Conditions.{MayAsk, MayPrepare, MayCommit, MayAbort};
ghost use Rattle.protocol_rules.specs.History.{History, Ask, Prepare, Commit, Abort};
ghost use Rattle.control_trials.specs.Logs.{Follows, IsRunning, IsIdle, MayHave, IsHeld, AreHeld, HoldsMore, IsWokenFrom, is_at, wakes_place};
ghost use Rattle.control_trials.specs.Trials.{trial_key, bound_of, number_of, rows_at, rows_of, HasTrialRows};

use crate::steps::{Cells, key};
use deneva_base::{Answer, Attempt, Items, Key, Mode, NoMemory, Number, TxnId, Vote, Wake};
use std::alloc::Global;

/// How many calls a trial may make.
const LIMIT: u32 = 1 << 20;

/// The end of the stamps and numbers.
const END: u64 = 1 << 48;

/// An access that was asked for.
#[derive(Clone, Copy, Debug)]
pub(crate) struct Wanted {
    pub(crate) who: Attempt,
    pub(crate) stamp: u64,
    pub(crate) key: Key,
    pub(crate) mode: Mode,
}

/// Where an attempt has or waits for an access.
#[derive(Clone, Copy, Debug)]
pub(crate) struct Place {
    pub(crate) who: Attempt,
    pub(crate) key: Key,
}

/// The numbers of a vote Yes.
#[derive(Clone, Copy, Debug)]
pub(crate) struct Window {
    pub(crate) who: Attempt,
    pub(crate) lo: u64,
    pub(crate) hi: u64,
}

/// The calls so far, as far as the conditions of the next one ask.
#[derive(Drop)]
pub(crate) struct Log {
    calls: u32,
    asks: Items<Wanted>,
    waits: Vec<Place>,
    grants: Items<Place>,
    refused: Items<Attempt>,
    closed: Items<Attempt>,
    ended: Items<Attempt>,
    aborted: Items<Attempt>,
    windows: Items<Window>,
}

fn has(attempts: &[Attempt], who: Attempt) -> bool
    ensures { result ≡ list_any (λ a. attempt_eq a who) attempts.now }
{
    attempts.iter().any(|a| *a == who)
}

fn has_any(places: &[Place], who: Attempt) -> bool
    ensures { result ≡ list_any (λ p. attempt_eq p.who who) places.now }
{
    places.iter().any(|place| place.who == who)
}

fn has_place(places: &[Place], who: Attempt, key: Key) -> bool
    ensures { result ≡ list_any (is_at who key) places.now }
{
    places
        .iter()
        .any(|place| place.who == who && place.key == key)
}

fn has_asked(asks: &[Wanted], who: Attempt) -> bool
    ensures { result ≡ list_any (λ a. attempt_eq a.who who) asks.now }
{
    asks.iter().any(|a| a.who == who)
}

fn has_asked_for(asks: &[Wanted], who: Attempt, key: Key) -> bool
    ensures { result ≡ list_any (λ a. attempt_eq a.who who && key_eq a.key key) asks.now }
{
    asks.iter().any(|a| a.who == who && a.key == key)
}

fn has_only_read(asks: &[Wanted], who: Attempt, key: Key) -> bool
    ensures { result ≡ list_any (λ a. attempt_eq a.who who && (key_eq a.key key && not (writes a.mode))) asks.now }
{
    asks.iter()
        .any(|a| a.who == who && a.key == key && !a.mode.is_writing())
}

/// Whether another attempt of its transaction has asked and was not aborted.
fn has_rival(asks: &[Wanted], aborted: &[Attempt], who: Attempt) -> bool
    ensures { result ≡ list_any (λ a. (a.who.txn.0 == who.txn.0) && (not (attempt_eq a.who who) && not (list_any (λ b. attempt_eq b a.who) aborted.now))) asks.now }
{
    asks.iter().any(|a| a.who.txn == who.txn && a.who != who && !has(aborted, a.who))
}

fn has_another_stamp(asks: &[Wanted], who: Attempt, stamp: u64) -> bool
    ensures { result ≡ list_any (λ a. attempt_eq a.who who && not (a.stamp == stamp)) asks.now }
{
    asks.iter().any(|a| a.who == who && a.stamp != stamp)
}

fn is_stamp_taken(asks: &[Wanted], txn: TxnId, stamp: u64) -> bool
    ensures { result ≡ list_any (λ a. not (a.who.txn.0 == txn.0) && (a.stamp == stamp)) asks.now }
{
    asks.iter().any(|a| a.who.txn != txn && a.stamp == stamp)
}

fn is_inside(windows: &[Window], who: Attempt, n: u64) -> bool
    ensures { result ≡ list_any (λ w. attempt_eq w.who who && (nat_le w.lo n && nat_le n w.hi)) windows.now }
{
    windows
        .iter()
        .any(|w| w.who == who && w.lo <= n && n <= w.hi)
}

fn is_woken(woken: &[Wake], place: Place) -> bool
    ensures { result ≡ list_any (wakes_place place) woken.now }
{
    woken
        .iter()
        .any(|wake| wake.who == place.who && wake.key == place.key)
}

impl Log {
    /// Before the first call.
    pub(crate) fn new(alloc: Global) -> Log
        ensures { Follows result [] }
    {
        Log {
            calls: 0,
            asks: Items::new(alloc),
            waits: Vec::new(alloc),
            grants: Items::new(alloc),
            refused: Items::new(alloc),
            closed: Items::new(alloc),
            ended: Items::new(alloc),
            aborted: Items::new(alloc),
            windows: Items::new(alloc),
        }
    }

    /// Whether the attempt waits nowhere and has not ended, and one more call may be made.
    fn is_running(&self, who: Attempt) -> bool
        ensures may { IsTrue result → (h : History) → Follows self.now h → IsRunning h who }
        ensures room { IsTrue result → self.now.calls < 2 ^ 20 }
    {
        if has_any(&self.waits, who) {
            return false;
        }
        !has(self.ended.as_slice(), who) && self.calls < LIMIT
    }

    /// Whether the attempt also was refused nothing and has not prepared.
    fn is_idle(&self, who: Attempt) -> bool
        ensures may { IsTrue result → (h : History) → Follows self.now h → IsIdle h who }
        ensures room { IsTrue result → self.now.calls < 2 ^ 20 }
    {
        if !self.is_running(who) {
            return false;
        }
        !has(self.refused.as_slice(), who) && !has(self.closed.as_slice(), who)
    }

    /// Whether the attempt may have this stamp.
    fn may_have(&self, who: Attempt, stamp: u64) -> bool
        ensures { IsTrue result → (h : History) → Follows self.now h → MayHave h who stamp }
    {
        let asks = self.asks.as_slice();
        if has_another_stamp(asks, who, stamp) {
            return false;
        }
        if is_stamp_taken(asks, who.txn, stamp) {
            return false;
        }
        1 <= stamp && stamp < END
    }

    /// Whether the attempt may ask for the key of this number.
    pub(crate) fn may_ask(&self, who: Attempt, stamp: u64, a: u32) -> bool
        ensures may { IsTrue result → (loaded : Rows) (h : History) → HasTrialRows loaded → Follows self.now h → MayAsk loaded h who stamp (trial_key a) }
        ensures room { IsTrue result → self.now.calls < 2 ^ 20 }
    {
        let asks = self.asks.as_slice();
        if !self.is_idle(who) || !self.may_have(who, stamp) {
            return false;
        }
        if has_asked_for(asks, who, key(a)) {
            return false;
        }
        !has_rival(asks, self.aborted.as_slice(), who) && a < 2
    }

    /// Whether the attempt was granted the key for a write.
    fn holds(&self, who: Attempt, key: Key) -> bool
        ensures { IsTrue result → (h : History) → Follows self.now h → IsHeld h who key }
    {
        if has_only_read(self.asks.as_slice(), who, key) {
            return false;
        }
        has_place(self.grants.as_slice(), who, key)
    }

    /// Whether the attempt may write the key of this number, if it is to.
    fn may_write(&self, who: Attempt, a: u32, cell: Option<u32>) -> bool
        ensures { IsTrue result → (h : History) → Follows self.now h → AreHeld h who (rows_at 0 a cell) }
    {
        match cell {
            None => true,
            Some(_) => self.holds(who, key(a)),
        }
    }

    /// Whether the attempt may prepare with this bound and without rows.
    fn may_close(&self, who: Attempt, n: u64) -> bool
        ensures may { IsTrue result → (h : History) → Follows self.now h → MayPrepare h who (bound_of n) [] [] }
        ensures room { IsTrue result → self.now.calls < 2 ^ 20 }
    {
        if !self.is_idle(who) {
            return false;
        }
        has_any(self.grants.as_slice(), who) && n < END
    }

    /// Whether the attempt may prepare with this bound, writes and appends.
    pub(crate) fn may_prepare(&self, who: Attempt, n: u64, writes: Cells) -> bool
        ensures may { IsTrue result → (h : History) (appends : Cells) → Follows self.now h → MayPrepare h who (bound_of n) (rows_of 0 writes) (rows_of 5 appends) }
        ensures room { IsTrue result → self.now.calls < 2 ^ 20 }
    {
        if !self.may_close(who, n) || !self.may_write(who, 0, writes.first) {
            return false;
        }
        self.may_write(who, 1, writes.second)
    }

    /// Whether the attempt may commit under the number of this `n`.
    pub(crate) fn may_commit(&self, who: Attempt, n: u64) -> bool
        ensures may { IsTrue result → (h : History) → Follows self.now h → MayCommit h who (number_of who n) }
        ensures room { IsTrue result → self.now.calls < 2 ^ 20 }
    {
        if !self.is_running(who) {
            return false;
        }
        is_inside(self.windows.as_slice(), who, n) && n < END
    }

    pub(crate) fn may_abort(&self, who: Attempt) -> bool
        ensures may { IsTrue result → (h : History) → Follows self.now h → MayAbort h who }
        ensures room { IsTrue result → self.now.calls < 2 ^ 20 }
    {
        if !self.is_running(who) {
            return false;
        }
        has_asked(self.asks.as_slice(), who)
    }

    /// Notes an ask with its answer.
    pub(crate) fn note_ask(&mut self, wanted: Wanted, answer: &Answer) -> Result<(), NoMemory>
        requires { self.old.calls < 2 ^ 20 }
        ensures { OnOk result ((h : History) → Follows self.old h → Follows self.new (Ask wanted.who wanted.stamp wanted.key wanted.mode answer.now ∷ h)) }
    {
        let who = wanted.who;
        let place = Place {
            who,
            key: wanted.key,
        };
        self.calls += 1;
        self.asks.push(wanted)?;
        match answer {
            Answer::Granted { .. } => Ok(self.grants.push(place)?),
            Answer::Waits => Ok(self.waits.push(place)?),
            Answer::Refused(_) => Ok(self.refused.push(who)?),
        }
    }

    /// Notes a prepare with its vote.
    pub(crate) fn note_prepare(&mut self, who: Attempt, vote: Vote) -> Result<(), NoMemory>
        requires { self.old.calls < 2 ^ 20 }
        ensures { OnOk result ((h : History) (bound : Bound) (ws as' : List Keyed) → Follows self.old h → Follows self.new (Prepare who bound ws as' vote ∷ h)) }
    {
        self.calls += 1;
        self.closed.push(who)?;
        match vote {
            Vote::Yes { lo, hi } => Ok(self.windows.push(Window { who, lo, hi })?),
            Vote::No(_) => Ok(()),
        }
    }

    /// Notes the accesses that an end granted.
    fn hold(&mut self, woken: &[Wake]) -> Result<(), NoMemory>
        ensures { OnOk result (HoldsMore self.old woken.now self.new) }
    {
        for wake in woken {
            if has_asked_for(self.asks.as_slice(), wake.who, wake.key) {
                self.grants.push(Place {
                    who: wake.who,
                    key: wake.key,
                })?;
            }
        }
        Ok(())
    }

    /// Notes whom an end woke.
    fn note_wakes(&mut self, woken: &[Wake]) -> Result<(), NoMemory>
        ensures { OnOk result (IsWokenFrom self.old woken.now self.new) }
    {
        self.hold(woken)?;
        self.waits.retain(|place| !is_woken(woken, *place));
        Ok(())
    }

    /// Notes a commit and whom it woke.
    pub(crate) fn note_commit(&mut self, who: Attempt, woken: &[Wake]) -> Result<(), NoMemory>
        requires { self.old.calls < 2 ^ 20 }
        ensures { OnOk result ((h : History) (number : Number) → Follows self.old h → Follows self.new (Commit who number woken.now ∷ h)) }
    {
        self.calls += 1;
        self.ended.push(who)?;
        self.note_wakes(woken)
    }

    /// Notes an abort and whom it woke.
    pub(crate) fn note_abort(&mut self, who: Attempt, woken: &[Wake]) -> Result<(), NoMemory>
        requires { self.old.calls < 2 ^ 20 }
        ensures { OnOk result ((h : History) → Follows self.old h → Follows self.new (Abort who woken.now ∷ h)) }
    {
        self.calls += 1;
        self.ended.push(who)?;
        self.aborted.push(who)?;
        self.note_wakes(woken)
    }
}
