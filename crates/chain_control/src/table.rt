//! A partition under multiversion ordering: its rows, the versions of them, the accesses, and what each attempt has there.
ghost use Rattle.std.specs.Prelude.{◌≡◌, [], ◌≤◌, ◌<◌, ◌^◌, ◌+◌, ◌++◌, true, map, option_map, None, Some, IfOk, IfErr, IsOk, OnOk, OnErr, length};
ghost use Rattle.deneva_base.specs.Lists.{IsIn, greatest_by};
ghost use Rattle.deneva_base.specs.declared.keys.Key.{Key};
ghost use Rattle.deneva_base.specs.declared.rows.Keyed.{Keyed};
ghost use Rattle.deneva_base.specs.declared.answers.Answer.TheVariants.{Granted, Waits};
ghost use Rattle.deneva_base.specs.declared.answers.Vote.TheVariants.{Yes};
ghost use Rattle.protocol_rules.specs.Latest.{row_for};
ghost use Rattle.row_store.specs.Stores.{has};
ghost use Rattle.chain_control.specs.Tables.{chain_at, below_in, stamp_in, goers_over, no_one};
ghost use Rattle.shelf.specs.Shelves.{held};
ghost use Rattle.chain_control.specs.Changes.{read_in, read_of, read_after, comes_after, waiting, IsNew, Opens, Stays, Grants, Waiting, MayNote, Votes, MayVote, EndsAndWakes, wake_for};

use crate::lines::Lines;
use crate::links::ReadVersion;
use crate::requests::{Request, Waiter};
use control_core::PrepareNoMemory;
use deneva_base::{
    Answer, Attempt, Key, Keyed, Mode, NoMemory, Number, Row, RowList, TxnId, Vote, Wake, Woken,
};
use row_store::Store;
use shelf::{Ended, Shelf, find_row};
use std::alloc::Global;

/// The rows and what each attempt has here, what is kept of each key, and the number of requests that wait.
#[derive(Drop)]
pub(crate) struct Table {
    pub shelf: Shelf,
    pub lines: Lines,
    pub waiting: usize,
}

/// The row of a version with its number, or no cells.
fn share_link(alloc: Global, link: Option<&ReadVersion>) -> Result<(Row, Number), NoMemory>
    ensures { IfOk result (λ r. r ≡ read_of (option_map (λ l. l.now) link.entry)) }
{
    match link {
        Some(link) => Ok((link.row.share()?, link.number)),
        None => {
            let number = Number { n: 0, id: TxnId(0) };
            Ok((Row::empty(alloc)?, number))
        }
    }
}

impl Table {
    pub fn new(store: Store) -> Table
        ensures { IsNew store result }
    {
        let alloc = store.allocator();
        Table {
            shelf: Shelf::new(store),
            lines: Lines::new(alloc),
            waiting: 0,
        }
    }

    /// Makes sure that the versions of a key are kept.
    pub fn open(&mut self, key: Key) -> Result<(), NoMemory>
        ensures ok { OnOk result (Opens key self.old self.new) }
        ensures err { OnErr result (Stays self.old self.new) }
    {
        match self.shelf.version(key) {
            Some(version) => self.lines.open(key, version),
            None => Ok(()),
        }
    }

    /// What an access is granted: the version below its stamp, and no cells for a Put.
    fn read(&self, key: Key, stamp: u64, mode: Mode) -> Result<(Row, Number), NoMemory>
        ensures { IfOk result (λ r. r ≡ read_in mode (below_in stamp (chain_at self.now.lines key))) }
    {
        let alloc = self.shelf.allocator();
        if mode.is_reading() {
            share_link(alloc, self.lines.below(key, stamp))
        } else {
            share_link(alloc, None)
        }
    }

    /// Grants an access.
    pub fn grant(&mut self, key: Key, asked: Request) -> Result<Answer, NoMemory>
        ensures answer { IfOk result (λ a. a ≡ Granted (read_in asked.mode (below_in asked.stamp (chain_at self.old.lines key))).0 (read_in asked.mode (below_in asked.stamp (chain_at self.old.lines key))).1 0) }
        ensures ok { OnOk result (Grants key (read_in asked.mode (below_in asked.stamp (chain_at self.old.lines key))).1 asked self.old self.new) }
        ensures err { OnErr result (MayNote asked.who asked.stamp key self.old self.new) }
    {
        let (row, version) = self.read(key, asked.stamp, asked.mode)?;
        self.shelf.note(asked.who, asked.stamp, key)?;
        self.lines.grant(key, version, asked)?;
        Ok(Answer::Granted {
            row,
            version,
            bound: 0,
        })
    }

    /// The number of the version below the stamp.
    fn version_below(&self, key: Key, stamp: u64) -> Number
        ensures { result ≡ (read_of (below_in stamp (chain_at self.now.lines key))).1 }
    {
        match self.lines.below(key, stamp) {
            Some(link) => link.number,
            None => Number { n: 0, id: TxnId(0) },
        }
    }

    /// Lets an access wait.
    pub fn wait(&mut self, key: Key, asked: Request) -> Result<Answer, NoMemory>
        requires few { self.old.waiting < 2 ^ 63 }
        ensures answer { IfOk result (λ a. a ≡ Waits) }
        ensures ok { OnOk result (Waiting key (waiting asked (below_in asked.stamp (chain_at self.old.lines key))) self.old self.new) }
        ensures err { OnErr result (MayNote asked.who asked.stamp key self.old self.new) }
    {
        let asked = Request {
            waits: Some(self.version_below(key, asked.stamp)),
            ..asked
        };
        self.shelf.note(asked.who, asked.stamp, key)?;
        self.lines.add(key, asked)?;
        self.waiting += 1;
        Ok(Answer::Waits)
    }

    /// The stamp of an attempt.
    fn stamp(&self, who: Attempt) -> u64
        ensures { result ≡ greatest_by (λ key. stamp_in who (chain_at self.now.lines key)) (held self.now.shelf who).keys }
    {
        self.lines.stamp_over(self.shelf.keys(who), who)
    }

    /// Votes, and takes the memory for the rows.
    pub fn prepare(
        &mut self,
        who: Attempt,
        writes: RowList,
        appends: RowList,
    ) -> Result<Vote, PrepareNoMemory>
        ensures vote { IfOk result (λ v. v ≡ Yes (greatest_by (λ key. stamp_in who (chain_at self.old.lines key)) (held self.old.shelf who).keys) (greatest_by (λ key. stamp_in who (chain_at self.old.lines key)) (held self.old.shelf who).keys)) }
        ensures ok { OnOk result (Votes who writes appends self.old self.new) }
        ensures err { OnErr result (MayVote self.old self.new) }
        ensures returned { IfErr result (λ e. (e.writes ≡ writes) × (e.appends ≡ appends)) }
    {
        let stamp = self.stamp(who);
        self.shelf.promise_copied(who, writes, appends)?;
        Ok(Vote::Yes {
            lo: stamp,
            hi: stamp,
        })
    }

    /// The requests that wait and are to be granted when an attempt ends, which commits where it has a number.
    fn front(&self, ended: Attempt, number: Option<Number>) -> Result<Vec<Waiter>, NoMemory>
        ensures { IfOk result (λ front. front.items ≡ goers_over ended number (held self.now.shelf ended).writes self.now.lines (held self.now.shelf ended).keys) }
    {
        let keys = self.shelf.keys(ended);
        self.lines
            .front(keys, ended, number, self.shelf.writes(ended))
    }

    /// Whether there is none.
    fn is_idle(&self, ended: Attempt, number: Option<Number>) -> bool
        ensures { result ≡ no_one (goers_over ended number (held self.now.shelf ended).writes self.now.lines (held self.now.shelf ended).keys) }
    {
        let keys = self.shelf.keys(ended);
        self.lines
            .is_idle(keys, ended, number, self.shelf.writes(ended))
    }

    /// Whether the number is above that of the version below the stamp.
    fn comes_after(&self, key: Key, stamp: u64, number: Number) -> bool
        ensures { result ≡ comes_after number stamp (below_in stamp (chain_at self.now.lines key)) }
    {
        match self.lines.below(key, stamp) {
            Some(link) => number.n < stamp && link.number < number,
            None => number.n < stamp,
        }
    }

    /// The version below a stamp after these rows are written under a number, if there is one.
    fn read_after(
        &self,
        key: Key,
        stamp: u64,
        number: Option<Number>,
        rows: &[Keyed],
    ) -> Result<(Row, Number), NoMemory>
        ensures { IfOk result (λ r. r ≡ read_after number (row_for key rows.now) stamp (below_in stamp (chain_at self.now.lines key))) }
    {
        match (number, find_row(rows, key)) {
            (Some(number), Some(row)) if self.comes_after(key, stamp, number) => {
                Ok((row.share()?, number))
            }
            _ => share_link(self.shelf.allocator(), self.lines.below(key, stamp)),
        }
    }

    /// The wakes of these requests, granted after an attempt ends that writes these rows where it has a number.
    fn wakes_of(
        &self,
        front: &[Waiter],
        number: Option<Number>,
        rows: &[Keyed],
    ) -> Result<Woken, NoMemory>
        ensures { IfOk result (λ wakes. wakes ≡ map (wake_for self.now.lines number rows.now) front.now) }
    {
        let mut wakes = Woken::new(self.shelf.allocator());
        for waiter in front {
            let (row, version) = self.read_after(waiter.key, waiter.stamp, number, rows)?;
            wakes.push(Wake {
                who: waiter.who,
                key: waiter.key,
                row,
                version,
                bound: 0,
            })?;
        }
        Ok(wakes)
    }

    /// The wakes of these requests, when an attempt ends, which commits where it has a number.
    fn wakes(
        &self,
        front: &[Waiter],
        ended: Attempt,
        number: Option<Number>,
    ) -> Result<Woken, NoMemory>
        ensures { IfOk result (λ wakes. wakes ≡ map (wake_for self.now.lines number (held self.now.shelf ended).writes) front.now) }
    {
        self.wakes_of(front, number, self.shelf.writes(ended))
    }

    /// Ends an attempt, which commits where it has a number, and grants who waited for it: their wakes are put at the end
    /// of `woken`. Where there is none, this takes no memory. Of a key, the `keep` greatest versions are kept, or all
    /// for 0, and those that a waiter is to read.
    pub fn end_and_wake(
        &mut self,
        keep: usize,
        who: Attempt,
        number: Option<Number>,
        woken: &mut Woken,
    ) -> Result<(), NoMemory>
        requires present { (w : Keyed) → IsIn w (held self.old.shelf who).writes → has self.old.shelf.store w.key ≡ true }
        requires promised { length (held self.old.shelf who).appends ≤ self.old.shelf.promised }
        requires room { self.old.shelf.promised ≤ self.old.shelf.store.spare }
        requires few { length (goers_over who number (held self.old.shelf who).writes self.old.lines (held self.old.shelf who).keys) ≤ self.old.waiting }
        ensures woken { OnOk result (woken.new ≡ woken.old ++ map (wake_for self.old.lines number (held self.old.shelf who).writes) (goers_over who number (held self.old.shelf who).writes self.old.lines (held self.old.shelf who).keys)) }
        ensures ok { OnOk result (EndsAndWakes keep who number (goers_over who number (held self.old.shelf who).writes self.old.lines (held self.old.shelf who).keys) self.old self.new) }
        ensures err { OnErr result (self.new ≡ self.old) }
        ensures same_woken { OnErr result (woken.new ≡ woken.old) }
        ensures idle { goers_over who number (held self.old.shelf who).writes self.old.lines (held self.old.shelf who).keys ≡ [] → IsOk result }
    {
        if self.is_idle(who, number) {
            self.end(keep, who, number, &[]);
            return Ok(());
        }
        let front = self.front(who, number)?;
        let wakes = self.wakes(&front, who, number)?;
        woken.append(wakes)?;
        self.end(keep, who, number, &front);
        Ok(())
    }

    /// Ends an attempt, which commits if it has a number: its rows are written, its requests are taken out, those that
    /// waited for it are granted, and versions that are no longer kept are dropped.
    fn end(&mut self, keep: usize, who: Attempt, number: Option<Number>, front: &[Waiter])
        requires present { (w : Keyed) → IsIn w (held self.old.shelf who).writes → has self.old.shelf.store w.key ≡ true }
        requires promised { length (held self.old.shelf who).appends ≤ self.old.shelf.promised }
        requires room { self.old.shelf.promised ≤ self.old.shelf.store.spare }
        requires few { length front.now ≤ self.old.waiting }
        ensures { EndsAndWakes keep who number front.now self.old self.new }
    {
        let Ended { keys, copies } = self.shelf.end(who, number);
        self.waiting -= front.len();
        if let Some(number) = number {
            self.lines.commit_all(keep, who, number, copies);
        }
        self.lines.end_all(&keys, who);
        self.lines.wake_all(front);
        self.lines.trim_all(&keys);
    }
}
