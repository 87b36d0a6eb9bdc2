//! A partition under two-phase locking: its rows, its locks, and what each attempt has there.
ghost use Rattle.std.specs.Prelude.{◌≡◌, [], ◌≤◌, ◌<◌, ◌^◌, ◌+◌, ◌++◌, ℕ, true, map, option_map, None, Some, IfOk, IfErr, IsOk, OnOk, OnErr, length};
ghost use Rattle.deneva_base.specs.Lists.{IsIn, greatest_by};
ghost use Rattle.deneva_base.specs.declared.keys.Key.{Key};
ghost use Rattle.deneva_base.specs.declared.numbers.Attempt.{Attempt};
ghost use Rattle.deneva_base.specs.declared.rows.Keyed.{Keyed};
ghost use Rattle.deneva_base.specs.declared.answers.Answer.TheVariants.{Granted, Waits};
ghost use Rattle.deneva_base.specs.declared.answers.Vote.TheVariants.{Yes};
ghost use Rattle.row_store.specs.Stores.{version_at, has};
ghost use Rattle.control_core.specs.Leaving.{IsLoadedStore};
ghost use Rattle.protocol_rules.specs.Latest.{row_for};
ghost use Rattle.protocol_rules.specs.WaitDie.{none};
ghost use Rattle.lock_control.specs.Requests.{waiting};
ghost use Rattle.shelf.specs.Shelves.{held, read_in};
ghost use Rattle.lock_control.specs.Locks.{bound_at};
ghost use Rattle.lock_control.specs.Tables.{locks_at, front_over};
ghost use Rattle.lock_control.specs.Changes.{IsNew, Adds, MayNote, MayVote, EndsOne, EndsAndWakes, Wakes, Votes, comes_after, version_after, wake_for};

use crate::lines::{Lines, Waiter};
use crate::requests::Request;
use control_core::PrepareNoMemory;
use deneva_base::{
    Answer, Attempt, Key, Keyed, Mode, NoMemory, Number, Row, RowList, TxnId, Vote, Wake, Woken,
};
use row_store::Store;
use shelf::{Shelf, find_row};

/// The rows and what each attempt has here, the locks, and the number of requests that wait.
#[derive(Drop)]
pub(crate) struct Table {
    pub shelf: Shelf,
    pub lines: Lines,
    pub waiting: usize,
}

impl Table {
    pub fn new(store: Store) -> Table
        ensures { IsNew store result }
    {
        let alloc = store.allocator();
        Table {
            shelf: Shelf::new(store),
            lines: Lines::new(alloc),
            waiting: 0,
        }
    }

    /// Grants an access.
    pub fn grant(&mut self, key: Key, asked: Request) -> Result<Answer, NoMemory>
        ensures answer { IfOk result (λ a. a ≡ Granted (read_in asked.mode (version_at self.old.shelf.store key)).0 (read_in asked.mode (version_at self.old.shelf.store key)).1 0) }
        ensures ok { OnOk result (Adds key asked 0 self.old self.new) }
        ensures err { OnErr result (MayNote asked.who asked.stamp key self.old self.new) }
    {
        let (row, version) = self.shelf.read(key, asked.mode)?;
        self.shelf.note(asked.who, asked.stamp, key)?;
        self.lines.add(key, asked)?;
        Ok(Answer::Granted {
            row,
            version,
            bound: 0,
        })
    }

    /// Lets an access wait.
    pub fn wait(&mut self, key: Key, asked: Request) -> Result<Answer, NoMemory>
        requires few { self.old.waiting < 2 ^ 63 }
        ensures answer { IfOk result (λ a. a ≡ Waits) }
        ensures ok { OnOk result (Adds key (waiting asked) 1 self.old self.new) }
        ensures err { OnErr result (MayNote asked.who asked.stamp key self.old self.new) }
    {
        let asked = Request {
            waits: true,
            ..asked
        };
        self.shelf.note(asked.who, asked.stamp, key)?;
        self.lines.add(key, asked)?;
        self.waiting += 1;
        Ok(Answer::Waits)
    }

    /// The greatest number under which an attempt committed that had an access in conflict with one of this attempt.
    pub fn bound(&self, who: Attempt) -> u64
        ensures { result ≡ greatest_by (λ key. bound_at who (locks_at self.now.lines key)) (held self.now.shelf who).keys }
    {
        self.lines.bound_over(self.shelf.keys(who), who)
    }

    /// Votes, and takes the memory for the rows.
    pub fn prepare(
        &mut self,
        who: Attempt,
        writes: RowList,
        appends: RowList,
    ) -> Result<Vote, PrepareNoMemory>
        requires small { greatest_by (λ key. bound_at who (locks_at self.old.lines key)) (held self.old.shelf who).keys < 2 ^ 48 }
        ensures vote { IfOk result (λ v. v ≡ Yes (1 + greatest_by (λ key. bound_at who (locks_at self.old.lines key)) (held self.old.shelf who).keys) (2 ^ 63)) }
        ensures ok { OnOk result (Votes who writes appends self.old self.new) }
        ensures err { OnErr result (MayVote self.old self.new) }
        ensures returned { IfErr result (λ e. (e.writes ≡ writes) × (e.appends ≡ appends)) }
    {
        let lo = 1 + self.bound(who);
        self.shelf.promise(who, writes, appends)?;
        Ok(Vote::Yes { lo, hi: 1 << 63 })
    }

    /// The requests that wait and are to be granted when an attempt ends.
    pub fn front(&self, ended: Attempt) -> Result<Vec<Waiter>, NoMemory>
        ensures { IfOk result (λ front. front.items ≡ front_over ended self.now.lines (held self.now.shelf ended).keys) }
    {
        self.lines.front(self.shelf.keys(ended), ended)
    }

    /// Whether the number is above that of the key's row.
    fn comes_after(&self, key: Key, number: Number) -> bool
        ensures { result ≡ comes_after number (version_at self.now.shelf.store key) }
    {
        match self.shelf.version(key) {
            Some(version) => version.number < number,
            None => true,
        }
    }

    /// What an access to the key is granted after these rows are written under a number, if there is one.
    fn read_after(
        &self,
        key: Key,
        mode: Mode,
        number: Option<Number>,
        rows: &[Keyed],
    ) -> Result<(Row, Number), NoMemory>
        ensures { IfOk result (λ r. r ≡ read_in mode (version_after number (row_for key rows.now) (version_at self.now.shelf.store key))) }
    {
        match (number, find_row(rows, key)) {
            (Some(number), Some(row)) if mode.is_reading() && self.comes_after(key, number) => {
                Ok((row.share()?, number))
            }
            _ => self.shelf.read(key, mode),
        }
    }

    /// The wakes of these requests, granted after an attempt ends that writes these rows where it has a number.
    fn wakes_of(
        &self,
        front: &[Waiter],
        number: Option<Number>,
        rows: &[Keyed],
    ) -> Result<Woken, NoMemory>
        ensures { IfOk result (λ wakes. wakes ≡ map (wake_for self.now.shelf.store number rows.now) front.now) }
    {
        let mut wakes = Woken::new(self.shelf.allocator());
        for waiter in front {
            let (row, version) = self.read_after(waiter.key, waiter.mode, number, rows)?;
            wakes.push(Wake {
                who: waiter.who,
                key: waiter.key,
                row,
                version,
                bound: 0,
            })?;
        }
        Ok(wakes)
    }

    /// The wakes of these requests, when an attempt ends, which commits where it has a number.
    pub fn wakes(
        &self,
        front: &[Waiter],
        ended: Attempt,
        number: Option<Number>,
    ) -> Result<Woken, NoMemory>
        ensures { IfOk result (λ wakes. wakes ≡ map (wake_for self.now.shelf.store number (held self.now.shelf ended).writes) front.now) }
    {
        self.wakes_of(front, number, self.shelf.writes(ended))
    }

    /// Grants these requests.
    pub fn wake(&mut self, front: &[Waiter])
        requires few { length front.now ≤ self.old.waiting }
        ensures { Wakes front.now self.old self.new }
    {
        self.waiting -= front.len();
        self.lines.wake_all(front);
    }

    /// Whether no request is to be granted when an attempt ends.
    fn is_idle(&self, ended: Attempt) -> bool
        ensures { result ≡ none (front_over ended self.now.lines (held self.now.shelf ended).keys) }
    {
        self.lines.is_idle(self.shelf.keys(ended), ended)
    }

    /// Ends an attempt as `end` does, and grants who waited for it: their wakes are put at the end of `woken`. Where
    /// there is none, this takes no memory.
    pub fn end_and_wake(
        &mut self,
        who: Attempt,
        number: Option<Number>,
        woken: &mut Woken,
    ) -> Result<(), NoMemory>
        requires present { (w : Keyed) → IsIn w (held self.old.shelf who).writes → has self.old.shelf.store w.key ≡ true }
        requires promised { length (held self.old.shelf who).appends ≤ self.old.shelf.promised }
        requires room { self.old.shelf.promised ≤ self.old.shelf.store.spare }
        requires few { length (front_over who self.old.lines (held self.old.shelf who).keys) ≤ self.old.waiting }
        ensures woken { OnOk result (woken.new ≡ woken.old ++ map (wake_for self.old.shelf.store number (held self.old.shelf who).writes) (front_over who self.old.lines (held self.old.shelf who).keys)) }
        ensures ok { OnOk result (EndsAndWakes who number (front_over who self.old.lines (held self.old.shelf who).keys) self.old self.new) }
        ensures err { OnErr result (self.new ≡ self.old) }
        ensures same_woken { OnErr result (woken.new ≡ woken.old) }
        ensures idle { front_over who self.old.lines (held self.old.shelf who).keys ≡ [] → IsOk result }
    {
        if self.is_idle(who) {
            self.end(who, number);
            return Ok(());
        }
        let front = self.front(who)?;
        let wakes = self.wakes(&front, who, number)?;
        woken.append(wakes)?;
        self.end(who, number);
        self.wake(&front);
        Ok(())
    }

    /// Ends an attempt, which commits where it has a number: its rows are written, and its requests are taken out.
    pub fn end(&mut self, who: Attempt, number: Option<Number>)
        requires present { (w : Keyed) → IsIn w (held self.old.shelf who).writes → has self.old.shelf.store w.key ≡ true }
        requires promised { length (held self.old.shelf who).appends ≤ self.old.shelf.promised }
        requires room { self.old.shelf.promised ≤ self.old.shelf.store.spare }
        ensures { EndsOne who number self.old self.new }
    {
        let ended = self.shelf.end(who, number);
        self.lines.end_all(&ended.keys, who, number);
    }
}
