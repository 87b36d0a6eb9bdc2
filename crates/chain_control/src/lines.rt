//! What is kept of each key.
ghost use Rattle.std.specs.Prelude.{◌≡◌, ◌++◌, None, option_map, length, IfOk, OnOk, OnErr};
ghost use Rattle.protocol_rules.specs.Latest.{row_for};
ghost use Rattle.deneva_base.specs.Lists.{greatest_by};
ghost use Rattle.deneva_base.specs.declared.keys.Key.{Key};
ghost use Rattle.chain_control.specs.Chains.{with_request, with_grant, committed, without, granted, trimmed};
ghost use Rattle.key_table.specs.Keys.{same_key};
ghost use Rattle.key_table.specs.Tables.{changed};
ghost use Rattle.chain_control.specs.Tables.{chain_at, below_in, refusal_in, stopped_in, stamp_in, kept_in, opened_in, new_of, goers_in, goers_over, key_of, row_key, waiter_key, ends_at, wakes_at, trims_at, commits_at, SetsChain, SameChains, no_one};

use crate::line::KeyVersions;
use crate::links::ReadVersion;
use crate::requests::{Request, Waiter};
use deneva_base::{Attempt, Cause, Key, Keyed, NoMemory, Number, Row, RowList};
use row_store::Version;
use shelf::find_row;
use std::alloc::Global;
use std::collections::HashMap;

#[derive(Drop)]
pub(crate) struct Lines {
    alloc: Global,
    lines: HashMap<Key, KeyVersions>,
}

/// The number under which a key is written, where it is.
fn number_of(number: Option<Number>, rows: &[Keyed], key: Key) -> Option<Number>
    ensures { result ≡ new_of number (row_for key rows.now) }
{
    match find_row(rows, key) {
        Some(_) => number,
        None => None,
    }
}

impl Lines {
    pub fn new(alloc: Global) -> Lines
        ensures { (key : Key) → chain_at result key ≡ None }
    {
        Lines {
            alloc,
            lines: HashMap::new(alloc),
        }
    }

    /// Makes sure that there is a line of the key, whose row was not written yet where there is none.
    pub fn open(&mut self, key: Key, version: &Version) -> Result<(), NoMemory>
        ensures ok { OnOk result (SetsChain self.old key (opened_in version.now (chain_at self.old key)) self.new) }
        ensures err { OnErr result (SameChains self.old self.new) }
    {
        if self.lines.contains_key(&key) {
            return Ok(());
        }
        let line = KeyVersions::open(self.alloc, version)?;
        self.lines.insert(key, line)?;
        Ok(())
    }

    /// The version of the greatest number below the stamp.
    pub fn below(&self, key: Key, stamp: u64) -> Option<&ReadVersion>
        ensures { option_map (λ l. l.now) result ≡ below_in stamp (chain_at self.now key) }
    {
        match self.lines.get(&key) {
            Some(line) => line.below(stamp),
            None => None,
        }
    }

    /// Why an access is refused.
    pub fn refusal(&self, key: Key, asked: &Request) -> Option<Cause>
        ensures { result ≡ refusal_in key asked.now (chain_at self.now key) }
    {
        match self.lines.get(&key) {
            Some(line) => line.refusal(key, asked),
            None => None,
        }
    }

    /// Whether an access waits: it reads, and a granted access writes between the version below its stamp and its stamp.
    pub fn is_stopped(&self, key: Key, asked: &Request) -> bool
        ensures { result ≡ stopped_in asked.now (chain_at self.now key) }
    {
        match self.lines.get(&key) {
            Some(line) => asked.mode.is_reading() && line.is_stopped(asked.stamp),
            None => false,
        }
    }

    /// The stamp of the attempt's access to the key, or 0.
    fn stamp(&self, key: Key, who: Attempt) -> u64
        ensures { result ≡ stamp_in who (chain_at self.now key) }
    {
        match self.lines.get(&key) {
            Some(line) => line.stamp(who),
            None => 0,
        }
    }

    /// The greatest of these over the keys.
    pub fn stamp_over(&self, keys: &[Key], who: Attempt) -> u64
        ensures { result ≡ greatest_by (λ key. stamp_in who (chain_at self.now key)) keys.now }
    {
        let mut stamp = 0;
        for key in keys {
            stamp = stamp.max(self.stamp(*key, who));
        }
        stamp
    }

    /// How many versions are kept of a key.
    pub fn kept(&self, key: Key) -> usize
        ensures { result ≡ kept_in (chain_at self.now key) }
    {
        match self.lines.get(&key) {
            Some(line) => line.links.len(),
            None => 1,
        }
    }

    /// Adds a request that waits for the key, where there is a line of it.
    pub fn add(&mut self, key: Key, request: Request) -> Result<(), NoMemory>
        ensures ok { OnOk result (SetsChain self.old key (option_map (with_request request) (chain_at self.old key)) self.new) }
        ensures err { OnErr result (SameChains self.old self.new) }
    {
        match self.lines.get_mut(&key) {
            Some(line) => line.add(request),
            None => Ok(()),
        }
    }

    /// Adds one that is granted, and reads the version of this number where it reads.
    pub fn grant(&mut self, key: Key, version: Number, request: Request) -> Result<(), NoMemory>
        ensures ok { OnOk result (SetsChain self.old key (option_map (with_grant version request) (chain_at self.old key)) self.new) }
        ensures err { OnErr result (SameChains self.old self.new) }
    {
        match self.lines.get_mut(&key) {
            Some(line) => line.grant(version, request),
            None => Ok(()),
        }
    }

    /// The requests that wait for these keys and are to be granted when an attempt ends, which writes these rows where there
    /// is a number: by key and then by rising stamp.
    pub fn front(
        &self,
        keys: &[Key],
        ended: Attempt,
        number: Option<Number>,
        rows: &[Keyed],
    ) -> Result<Vec<Waiter>, NoMemory>
        ensures { IfOk result (λ front. front.items ≡ goers_over ended number rows.now self.now keys.now) }
    {
        let mut front = Vec::new(self.alloc);
        for key in keys {
            if let Some(line) = self.lines.get(key) {
                line.push_goers(&mut front, *key, ended, number_of(number, rows, *key))?;
            }
        }
        Ok(front)
    }

    /// Whether there is none.
    pub fn is_idle(
        &self,
        keys: &[Key],
        ended: Attempt,
        number: Option<Number>,
        rows: &[Keyed],
    ) -> bool
        ensures { result ≡ no_one (goers_over ended number rows.now self.now keys.now) }
    {
        for key in keys {
            if let Some(line) = self.lines.get(key) {
                if !line.is_idle(ended, number_of(number, rows, *key)) {
                    return false;
                }
            }
        }
        true
    }

    /// Takes out the request for the key of an attempt that commits under a number, with the row that it writes.
    fn commit(&mut self, keep: usize, who: Attempt, number: Number, key: Key, row: Row)
        ensures { SetsChain self.old key (option_map (committed keep who number row) (chain_at self.old key)) self.new }
    {
        if let Some(line) = self.lines.get_mut(&key) {
            line.commit(keep, who, number, row);
        }
    }

    /// Takes out its requests for the keys that it writes.
    pub fn commit_all(&mut self, keep: usize, who: Attempt, number: Number, rows: RowList)
        ensures { (other : Key) → chain_at self.new other ≡ changed same_key row_key (commits_at keep who number) rows other (chain_at self.old other) }
    {
        for Keyed { key, row } in rows.into_vec() {
            self.commit(keep, who, number, key, row);
        }
    }

    /// Takes out the attempt's request for the key.
    fn end(&mut self, key: Key, who: Attempt)
        ensures { SetsChain self.old key (ends_at who key (chain_at self.old key)) self.new }
    {
        if let Some(line) = self.lines.get_mut(&key) {
            line.leave(who);
        }
    }

    /// Takes out its requests for these keys.
    pub fn end_all(&mut self, keys: &[Key], who: Attempt)
        ensures { (other : Key) → chain_at self.new other ≡ changed same_key key_of (ends_at who) keys.now other (chain_at self.old other) }
    {
        for key in keys {
            self.end(*key, who);
        }
    }

    /// Grants a request.
    fn wake(&mut self, waiter: &Waiter)
        ensures { SetsChain self.old waiter.now.key (wakes_at waiter.now (chain_at self.old waiter.now.key)) self.new }
    {
        if let Some(line) = self.lines.get_mut(&waiter.key) {
            line.wake(waiter.who, waiter.version, waiter.stamp);
        }
    }

    /// Grants these requests.
    pub fn wake_all(&mut self, waiters: &[Waiter])
        ensures { (other : Key) → chain_at self.new other ≡ changed same_key waiter_key wakes_at waiters.now other (chain_at self.old other) }
    {
        for waiter in waiters {
            self.wake(waiter);
        }
    }

    /// Drops the versions of the key that are no longer kept.
    fn trim(&mut self, key: Key)
        ensures { SetsChain self.old key (trims_at key (chain_at self.old key)) self.new }
    {
        if let Some(line) = self.lines.get_mut(&key) {
            line.trim();
        }
    }

    /// Drops those of these keys.
    pub fn trim_all(&mut self, keys: &[Key])
        ensures { (other : Key) → chain_at self.new other ≡ changed same_key key_of trims_at keys.now other (chain_at self.old other) }
    {
        for key in keys {
            self.trim(*key);
        }
    }
}
