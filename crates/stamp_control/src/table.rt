//! A partition under timestamp ordering: its rows, the accesses to them, and what is kept of each key.
ghost use Rattle.std.specs.Prelude.{◌≡◌, ◌≢◌, [], ◌≤◌, ◌<◌, ◌^◌, ◌+◌, ◌++◌, ◌&&◌, ℕ, true, map, option_map, IfOk, IfErr, IsOk, OnOk, OnErr, length};
ghost use Rattle.protocol_rules.specs.Conditions.{Distinct};
ghost use Rattle.deneva_base.specs.Lists.{IsIn};
ghost use Rattle.protocol_rules.specs.Latest.{row_for};
ghost use Rattle.protocol_rules.specs.WaitDie.{none};
ghost use Rattle.deneva_base.specs.declared.keys.Key.{Key};
ghost use Rattle.deneva_base.specs.declared.rows.Keyed.{Keyed};
ghost use Rattle.deneva_base.specs.declared.answers.Answer.TheVariants.{Granted, Waits};
ghost use Rattle.deneva_base.specs.declared.answers.Vote.TheVariants.{Yes};
ghost use Rattle.row_store.specs.Stores.{version_at, has};
ghost use Rattle.stamp_lines.specs.declared.requests.Request.{Request};
ghost use Rattle.deneva_base.specs.Modes.{reads};
ghost use Rattle.stamp_lines.specs.Requests.{is_stopped};
ghost use Rattle.stamp_lines.specs.Tables.{requests_at, part_of, waiting_of};
ghost use Rattle.shelf.specs.Shelves.{read_in};
ghost use Rattle.stamp_control.specs.Picks.{pick};
ghost use Rattle.stamp_control.specs.Pasts.{past_at};
ghost use Rattle.stamp_control.specs.Fronts.{front_over};
ghost use Rattle.stamp_control.specs.Changes.{written_in, refusal_in, writers_in, any_above, kept_by, version_or_empty, pick_after, wake_for, IsFresh, Grants, LetsWait, MayWiden, Promises, MayReserve, Ends, Wakes, EndsAndWakes};

use crate::fronts::{front_of, is_idle};
use crate::pasts::{Pasts, is_newer};
use control_core::PrepareNoMemory;
use deneva_base::{
    Answer, Attempt, Cause, Key, Keyed, Mode, NoMemory, Number, Row, RowList, TxnId, Vote, Wake,
    Woken,
};
use row_store::{Store, Version};
use shelf::{Ended, find_row};
use stamp_lines::{Accesses, Request, Waiter};

/// The rows with the accesses to them, and what is kept of each key.
#[derive(Drop)]
pub(crate) struct Table {
    pub accesses: Accesses,
    pub pasts: Pasts,
}

impl Table {
    pub fn new(store: Store) -> Table
        ensures { IsFresh store result }
    {
        let alloc = store.allocator();
        Table {
            accesses: Accesses::new(store),
            pasts: Pasts::new(alloc),
        }
    }

    /// The number of the key's row.
    fn written(&self, key: Key) -> u64
        ensures { result ≡ written_in (version_at self.now.accesses.shelf.store key) }
    {
        match self.accesses.shelf().version(key) {
            Some(version) => version.number.n,
            None => 0,
        }
    }

    /// Why an access comes too late for its stamp, if it does.
    pub fn refusal(&self, stamp: u64, key: Key, mode: Mode) -> Option<Cause>
        ensures { result ≡ refusal_in stamp key mode (written_in (version_at self.now.accesses.shelf.store key)) (past_at self.now.pasts key).read }
    {
        let written = self.written(key);
        if mode.is_reading() && stamp < written {
            return Some(Cause::Written {
                key,
                stamp: written,
            });
        }
        let read = self.pasts.read(key);
        if mode.is_writing() && stamp < read {
            return Some(Cause::ReadLater { key, stamp: read });
        }
        None
    }

    /// Whether an access that reads has to wait for one that writes.
    pub fn is_stopped(&self, stamp: u64, key: Key, mode: Mode) -> bool
        ensures { result ≡ (reads mode && is_stopped 0 stamp (requests_at self.now.accesses key)) }
    {
        mode.is_reading() && self.accesses.is_stopped(key, 0, stamp)
    }

    /// How many accesses to the key write, granted or waiting.
    fn writers(&self, key: Key) -> usize
        ensures count { result ≡ writers_in (requests_at self.now.accesses key) }
        ensures small { result < 2 ^ 63 }
    {
        count_writers(self.accesses.requests(key))
    }

    /// Grants an access.
    pub fn grant(&mut self, key: Key, asked: Request) -> Result<Answer, NoMemory>
        requires once { (r : Request) → IsIn r (requests_at self.old.accesses key) → r.who ≢ asked.who }
        requires few { waiting_of self.old.accesses < 2 ^ 63 }
        ensures answer { IfOk result (λ a. a ≡ Granted (read_in asked.mode (version_at self.old.accesses.shelf.store key)).0 (read_in asked.mode (version_at self.old.accesses.shelf.store key)).1 0) }
        ensures ok { OnOk result (Grants key asked self.old self.new) }
        ensures err { OnErr result (MayWiden self.old self.new) }
    {
        let (row, version) = self.accesses.shelf().read(key, asked.mode)?;
        let room = self.writers(key) + 1;
        self.pasts.reserve(key, room)?;
        self.accesses.add(key, asked)?;
        self.pasts.grant(key, asked.stamp, asked.mode);
        Ok(Answer::Granted {
            row,
            version,
            bound: 0,
        })
    }

    /// Lets an access wait. The row of its key is kept for it.
    pub fn wait(&mut self, key: Key, asked: Request) -> Result<Answer, NoMemory>
        requires once { (r : Request) → IsIn r (requests_at self.old.accesses key) → r.who ≢ asked.who }
        requires few { waiting_of self.old.accesses < 2 ^ 63 }
        ensures answer { IfOk result (λ a. a ≡ Waits) }
        ensures ok { OnOk result (LetsWait key asked self.old self.new) }
        ensures err { OnErr result (MayWiden self.old self.new) }
    {
        let (row, number) = self.accesses.shelf().read(key, Mode::Read)?;
        let asked = Request {
            waits: true,
            ..asked
        };
        let room = self.writers(key) + 2;
        self.pasts.reserve(key, room)?;
        self.accesses.add(key, asked)?;
        self.pasts
            .keep_latest(key, asked.stamp, Version { number, row });
        Ok(Answer::Waits)
    }

    /// Votes, and takes the memory for the rows.
    pub fn prepare(
        &mut self,
        who: Attempt,
        writes: RowList,
        appends: RowList,
    ) -> Result<Vote, PrepareNoMemory>
        ensures vote { IfOk result (λ v. v ≡ Yes (part_of self.old.accesses who).stamp (part_of self.old.accesses who).stamp) }
        ensures ok { OnOk result (Promises who writes appends self.old self.new) }
        ensures err { OnErr result (MayReserve self.old self.new) }
        ensures returned { IfErr result (λ e. (e.writes ≡ writes) × (e.appends ≡ appends)) }
    {
        let stamp = self.accesses.shelf().stamp(who);
        self.accesses.promise(who, writes, appends)?;
        Ok(Vote::Yes {
            lo: stamp,
            hi: stamp,
        })
    }

    /// What a waiting access reads when these rows are written under a number, if there is one.
    fn read_after(
        &self,
        waiter: &Waiter,
        number: Option<Number>,
        rows: &[Keyed],
    ) -> Result<(Row, Number), NoMemory>
        ensures { IfOk result (λ r. r ≡ version_or_empty (pick_after number (row_for waiter.now.key rows.now) waiter.now.stamp (pick waiter.now.stamp (past_at self.now.pasts waiter.now.key).versions))) }
    {
        let kept = self.pasts.pick(waiter.key, waiter.stamp);
        match (number, find_row(rows, waiter.key)) {
            (Some(number), Some(row)) if number.n < waiter.stamp && is_newer(kept, number) => {
                Ok((row.share()?, number))
            }
            _ => self.row_of(kept),
        }
    }

    /// The row of a version with its number, and no cells where there is none.
    fn row_of(&self, version: Option<&Version>) -> Result<(Row, Number), NoMemory>
        ensures { IfOk result (λ r. r ≡ version_or_empty (option_map (λ v. v.now) version.entry)) }
    {
        match version {
            Some(version) => Ok((version.row.share()?, version.number)),
            None => {
                let number = Number { n: 0, id: TxnId(0) };
                Ok((Row::empty(self.accesses.shelf().allocator())?, number))
            }
        }
    }

    /// The wakes of these accesses, granted after an attempt ends that writes these rows where it has a number.
    fn wakes_of(
        &self,
        front: &[Waiter],
        number: Option<Number>,
        rows: &[Keyed],
    ) -> Result<Woken, NoMemory>
        ensures { IfOk result (λ wakes. wakes ≡ map (wake_for self.now.pasts number rows.now) front.now) }
    {
        let mut wakes = Woken::new(self.accesses.shelf().allocator());
        for waiter in front {
            let (row, version) = self.read_after(waiter, number, rows)?;
            wakes.push(Wake {
                who: waiter.who,
                key: waiter.key,
                row,
                version,
                bound: 0,
            })?;
        }
        Ok(wakes)
    }

    /// The wakes of these accesses, when an attempt ends, which commits where it has a number.
    fn wakes(
        &self,
        front: &[Waiter],
        ended: Attempt,
        number: Option<Number>,
    ) -> Result<Woken, NoMemory>
        ensures { IfOk result (λ wakes. wakes ≡ map (wake_for self.now.pasts number (part_of self.now.accesses ended).writes) front.now) }
    {
        self.wakes_of(front, number, self.accesses.shelf().writes(ended))
    }

    /// The waiting accesses that the end of an attempt lets go.
    fn front(&self, ended: Attempt) -> Result<Vec<Waiter>, NoMemory>
        ensures { IfOk result (λ front. front.items ≡ front_over ended self.now.accesses (part_of self.now.accesses ended).keys) }
    {
        let shelf = self.accesses.shelf();
        front_of(shelf.allocator(), &self.accesses, shelf.keys(ended), ended)
    }

    /// Whether there is none.
    fn is_idle(&self, ended: Attempt) -> bool
        ensures { result ≡ none (front_over ended self.now.accesses (part_of self.now.accesses ended).keys) }
    {
        is_idle(&self.accesses, self.accesses.shelf().keys(ended), ended)
    }

    /// Ends an attempt, which commits where it has a number: its rows are written, and kept for those who wait above the
    /// number, and its accesses are taken out. Gives its keys.
    fn end(&mut self, who: Attempt, number: Option<Number>) -> Vec<Key>
        requires present { (w : Keyed) → IsIn w (part_of self.old.accesses who).writes → has self.old.accesses.shelf.store w.key ≡ true }
        requires promised { length (part_of self.old.accesses who).appends ≤ self.old.accesses.shelf.promised }
        requires room { self.old.accesses.shelf.promised ≤ self.old.accesses.shelf.store.spare }
        requires distinct { Distinct (part_of self.old.accesses who).copies }
        requires spare { (w : Keyed) → IsIn w (part_of self.old.accesses who).copies → 1 ≤ (past_at self.old.pasts w.key).spare }
        ensures { Ends who number self.old self.new }
    {
        let Ended { keys, copies } = self.accesses.end(who, number);
        if let Some(number) = number {
            keep_rows(&mut self.pasts, &self.accesses, number, copies);
        }
        keys
    }

    /// Grants these accesses.
    fn wake(&mut self, front: &[Waiter])
        requires few { length front.now ≤ waiting_of self.old.accesses }
        ensures { Wakes front.now self.old self.new }
    {
        self.accesses.wake_all(front);
        self.pasts.grant_all(front);
    }

    /// Ends an attempt as `end` does, grants these accesses, and drops what nobody who waits for its keys would read.
    fn close(&mut self, who: Attempt, number: Option<Number>, front: &[Waiter])
        requires present { (w : Keyed) → IsIn w (part_of self.old.accesses who).writes → has self.old.accesses.shelf.store w.key ≡ true }
        requires promised { length (part_of self.old.accesses who).appends ≤ self.old.accesses.shelf.promised }
        requires room { self.old.accesses.shelf.promised ≤ self.old.accesses.shelf.store.spare }
        requires distinct { Distinct (part_of self.old.accesses who).copies }
        requires spare { (w : Keyed) → IsIn w (part_of self.old.accesses who).copies → 1 ≤ (past_at self.old.pasts w.key).spare }
        requires few { length front.now ≤ waiting_of self.old.accesses }
        ensures { EndsAndWakes who number front.now self.old self.new }
    {
        let keys = self.end(who, number);
        self.wake(front);
        self.pasts.trim_all(&keys, &self.accesses);
    }

    /// Ends an attempt, and grants who waited for it: their wakes are put at the end of `woken`. Where there is none, this
    /// takes no memory.
    pub fn end_and_wake(
        &mut self,
        who: Attempt,
        number: Option<Number>,
        woken: &mut Woken,
    ) -> Result<(), NoMemory>
        requires present { (w : Keyed) → IsIn w (part_of self.old.accesses who).writes → has self.old.accesses.shelf.store w.key ≡ true }
        requires promised { length (part_of self.old.accesses who).appends ≤ self.old.accesses.shelf.promised }
        requires room { self.old.accesses.shelf.promised ≤ self.old.accesses.shelf.store.spare }
        requires distinct { Distinct (part_of self.old.accesses who).copies }
        requires spare { (w : Keyed) → IsIn w (part_of self.old.accesses who).copies → 1 ≤ (past_at self.old.pasts w.key).spare }
        requires few { length (front_over who self.old.accesses (part_of self.old.accesses who).keys) ≤ waiting_of self.old.accesses }
        ensures woken { OnOk result (woken.new ≡ woken.old ++ map (wake_for self.old.pasts number (part_of self.old.accesses who).writes) (front_over who self.old.accesses (part_of self.old.accesses who).keys)) }
        ensures ok { OnOk result (EndsAndWakes who number (front_over who self.old.accesses (part_of self.old.accesses who).keys) self.old self.new) }
        ensures err { OnErr result (self.new ≡ self.old) }
        ensures same_woken { OnErr result (woken.new ≡ woken.old) }
        ensures idle { front_over who self.old.accesses (part_of self.old.accesses who).keys ≡ [] → IsOk result }
    {
        if self.is_idle(who) {
            self.close(who, number, &[]);
            return Ok(());
        }
        let front = self.front(who)?;
        let wakes = self.wakes(&front, who, number)?;
        woken.append(wakes)?;
        self.close(who, number, &front);
        Ok(())
    }
}

/// How many of these requests write.
fn count_writers(requests: &[Request]) -> usize
    ensures count { result ≡ writers_in requests.now }
    ensures small { result ≤ length requests.now }
{
    requests
        .iter()
        .filter(|request| request.mode.is_writing())
        .count()
}

/// Whether one of these requests waits and has a stamp above the number.
fn is_awaited(requests: &[Request], n: u64) -> bool
    ensures { result ≡ any_above n requests.now }
{
    for request in requests {
        if request.waits && n < request.stamp {
            return true;
        }
    }
    false
}

/// Keeps rows of distinct keys for those who wait above the number, for which there is room.
fn keep_rows(pasts: &mut Pasts, accesses: &Accesses, number: Number, rows: RowList)
    requires distinct { Distinct rows }
    requires spare { (w : Keyed) → IsIn w rows → 1 ≤ (past_at pasts.old w.key).spare }
    ensures { (key : Key) → past_at pasts.new key ≡ kept_by number rows (requests_at accesses.now key) key (past_at pasts.old key) }
{
    for Keyed { key, row } in rows.into_vec() {
        if is_awaited(accesses.requests(key), number.n) {
            pasts.keep(key, Version { number, row });
        }
    }
}
