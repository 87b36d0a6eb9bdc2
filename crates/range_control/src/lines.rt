//! The unended accesses to each key.
ghost use Rattle.std.specs.Prelude.{◌≡◌, ◌<◌, ◌^◌, None, IfSome, OnOk, OnErr};
ghost use Rattle.deneva_base.specs.declared.keys.Key.{Key};
ghost use Rattle.protocol_rules.specs.Ranged.{lists};
ghost use Rattle.range_control.specs.Ends.{first_by, upper_before, lower_before};
ghost use Rattle.range_control.specs.Accesses.{no_accesses, past_over, prepared, ended_in, with_access};
ghost use Rattle.range_control.specs.Tables.{accesses_at, low_at, lower_at, upper_at, prepared_at, all_changed, SetsAccesses, SameAccesses};

use crate::accesses::{Held, KeyAccesses, Window};
use crate::ends::{Upper, greatest_lower, least_upper};
use deneva_base::{Attempt, Bound, Key, Keyed, NoMemory, Number};
use key_table::Table;
use std::alloc::Global;

#[derive(Drop)]
pub(crate) struct Lines {
    lines: Table<Key, KeyAccesses>,
}

/// Whether there is a row of the key.
fn is_listed(rows: &[Keyed], key: Key) -> bool
    ensures { result ≡ lists rows.now key }
{
    rows.iter().any(|row| row.key == key)
}

impl Lines {
    pub fn new(alloc: Global) -> Lines
        ensures { (key : Key) → accesses_at result key ≡ no_accesses }
    {
        Lines {
            lines: Table::new(alloc),
        }
    }

    /// One past all numbers of committed attempts and all upper ends of prepared ones that accessed the key.
    pub fn past(&self, key: Key) -> u64
        requires small { past_over (accesses_at self.now key) < 2 ^ 64 }
        ensures { result ≡ past_over (accesses_at self.now key) }
    {
        match self.lines.get(key) {
            Some(line) => line.past(),
            None => 0,
        }
    }

    /// What the attempt's access to the key asks of the lower end, where it is to write these rows.
    fn low(&self, key: Key, who: Attempt, writes: &[Keyed]) -> u64
        requires past { past_over (accesses_at self.now key) < 2 ^ 64 }
        requires low { low_at self.now who writes.now key < 2 ^ 64 }
        ensures { result ≡ low_at self.now who writes.now key }
    {
        match self.lines.get(key) {
            Some(line) => line.low(who, is_listed(writes, key)),
            None => 0,
        }
    }

    /// The greatest of these over the keys, with the least key that gives it.
    pub fn lower_over(&self, keys: &[Key], who: Attempt, writes: &[Keyed]) -> Option<Bound>
        requires past { (key : Key) → past_over (accesses_at self.now key) < 2 ^ 64 }
        requires low { (key : Key) → low_at self.now who writes.now key < 2 ^ 64 }
        ensures { result ≡ first_by lower_before (lower_at self.now who writes.now) None keys.now }
    {
        let mut best = None;
        for key in keys {
            let n = self.low(*key, who, writes);
            best = Some(greatest_lower(best, Bound { n, key: *key }));
        }
        best
    }

    /// The least upper end that others leave the attempt's access to the key.
    fn upper(&self, key: Key, who: Attempt) -> Option<Upper>
        ensures { result ≡ upper_at self.now who key }
    {
        match self.lines.get(key) {
            Some(line) => line.upper(who),
            None => None,
        }
    }

    /// The least of these over the keys.
    pub fn upper_over(&self, keys: &[Key], who: Attempt) -> Option<Upper>
        ensures { result ≡ first_by upper_before (upper_at self.now who) None keys.now }
    {
        let mut best = None;
        for key in keys {
            best = least_upper(best, self.upper(*key, who));
        }
        best
    }

    /// Adds an access to the key.
    pub fn add(&mut self, key: Key, access: Held) -> Result<(), NoMemory>
        ensures ok { OnOk result (SetsAccesses self.old key (with_access access (accesses_at self.old key)) self.new) }
        ensures err { OnErr result (SameAccesses self.old self.new) }
    {
        let line = self.lines.slot(key)?;
        line.add(access)
    }

    /// Gives the attempt's access to the key its window.
    fn prepare(&mut self, key: Key, who: Attempt, window: Window)
        ensures { SetsAccesses self.old key (prepared who window (accesses_at self.old key)) self.new }
    {
        if let Some(line) = self.lines.get_mut(key) {
            line.prepare(who, window);
        }
    }

    /// Gives the attempt's accesses to these keys the window from `lo` to `hi`, where it is to write these rows.
    pub fn prepare_all(&mut self, keys: &[Key], who: Attempt, lo: u64, hi: u64, writes: &[Keyed])
        ensures { (other : Key) → accesses_at self.new other ≡ all_changed (prepared_at who lo hi writes.now) keys.now other (accesses_at self.old other) }
    {
        for key in keys {
            let writes = is_listed(writes, *key);
            self.prepare(*key, who, Window { lo, hi, writes });
        }
    }

    /// Takes out the attempt's access to the key.
    fn end(&mut self, key: Key, who: Attempt, number: Option<Number>)
        requires small { IfSome number (λ n. n.n < 2 ^ 48) }
        ensures { SetsAccesses self.old key (ended_in who number (accesses_at self.old key)) self.new }
    {
        if let Some(line) = self.lines.get_mut(key) {
            line.end(who, number);
        }
    }

    /// Takes out the accesses to these keys of an attempt, which commits where it has a number.
    pub fn end_all(&mut self, keys: &[Key], who: Attempt, number: Option<Number>)
        requires small { IfSome number (λ n. n.n < 2 ^ 48) }
        ensures { (other : Key) → accesses_at self.new other ≡ all_changed (λ key. ended_in who number) keys.now other (accesses_at self.old other) }
    {
        for key in keys {
            self.end(*key, who, number);
        }
    }
}
