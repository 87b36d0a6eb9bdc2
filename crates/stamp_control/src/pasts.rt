//! What is kept of each key besides its latest row.
ghost use Rattle.std.specs.Prelude.{◌≡◌, ◌≢◌, ◌≤◌, [], true, option_map, OnOk};
ghost use Rattle.deneva_base.specs.Lists.{IsIn};
ghost use Rattle.row_store.specs.declared.versions.Version.{Version};
ghost use Rattle.deneva_base.specs.declared.keys.Key.{Key};
ghost use Rattle.stamp_lines.specs.Tables.{requests_at};
ghost use Rattle.stamp_control.specs.Picks.{newer_than, pick, is_above, is_read, is_needed};
ghost use Rattle.stamp_control.specs.Pasts.{past_of, past_at, no_past, raised, granted_at, all_granted_at, with_version, with_latest, Widens, HasRoom, Trims, SetsPast};

use deneva_base::{Key, Mode, NoMemory, Number};
use row_store::Version;
use stamp_lines::{Accesses, Request, Waiter};
use std::alloc::Global;
use std::collections::HashMap;

/// The greatest stamp of an access that was granted the key to read it, and the versions that those who wait for the key
/// would read.
#[derive(Drop)]
pub(crate) struct Past {
    pub read: u64,
    pub kept: Vec<Version>,
}

/// Whether the number is above that of the version, if there is one.
pub(crate) fn is_newer(best: Option<&Version>, number: Number) -> bool
    ensures { result ≡ newer_than (option_map (λ v. v.now) best.entry) number }
{
    match best {
        Some(version) => version.number < number,
        None => true,
    }
}

/// Whether one of these versions is above the number and below the stamp.
fn is_above(versions: &[Version], number: Number, stamp: u64) -> bool
    ensures { result ≡ is_above stamp number versions.now }
{
    versions
        .iter()
        .any(|other| number < other.number && other.number.n < stamp)
}

impl Past {
    fn new(alloc: Global) -> Past
        ensures read { result.read ≡ 0 }
        ensures kept { result.kept.items ≡ [] }
    {
        Past {
            read: 0,
            kept: Vec::new(alloc),
        }
    }

    /// The version of the greatest number below the stamp.
    fn pick(&self, stamp: u64) -> Option<&Version>
        ensures { option_map (λ v. v.now) result ≡ pick stamp self.now.kept.items }
    {
        let mut best: Option<&Version> = None;
        for version in &self.kept {
            if version.number.n < stamp && is_newer(best, version.number) {
                best = Some(version);
            }
        }
        best
    }

    /// Makes room for this many more versions.
    fn reserve(&mut self, room: usize) -> Result<(), NoMemory>
        ensures ok { OnOk result (room ≤ (past_of self.new).spare) }
        ensures read { self.new.read ≡ self.old.read }
        ensures kept { self.new.kept.items ≡ self.old.kept.items }
        ensures spare { (past_of self.old).spare ≤ (past_of self.new).spare }
    {
        Ok(self.kept.reserve(room)?)
    }

    /// Keeps a version, for which there is room.
    fn keep(&mut self, version: Version)
        requires { 1 ≤ (past_of self.old).spare }
        ensures { past_of self.new ≡ with_version version (past_of self.old) }
    {
        self.kept.push_reserved(version);
    }

    /// An access of the stamp has read the key.
    fn raise(&mut self, stamp: u64)
        ensures { past_of self.new ≡ raised stamp (past_of self.old) }
    {
        self.read = self.read.max(stamp);
    }

    /// Whether a version of the number is below the stamp, and no version is between.
    fn is_read(&self, number: Number, stamp: u64) -> bool
        ensures { result ≡ is_read stamp self.now.kept.items number }
    {
        number.n < stamp && !is_above(&self.kept, number, stamp)
    }

    /// Whether a waiting request would read the version of the number.
    fn is_needed(&self, number: Number, requests: &[Request]) -> bool
        ensures { result ≡ is_needed requests.now self.now.kept.items number }
    {
        for request in requests {
            if request.waits && self.is_read(number, request.stamp) {
                return true;
            }
        }
        false
    }

    /// Drops the versions that no waiting request would read.
    fn trim(&mut self, requests: &[Request])
        ensures needed { (v : Version) → IsIn v self.new.kept.items → is_needed requests.now self.new.kept.items v.number ≡ true }
        ensures rest { Trims requests.now (past_of self.old) (past_of self.new) }
    {
        let mut place = 0;
        while place < self.kept.len() {
            let number = self.kept[place].number;
            if self.is_needed(number, requests) {
                place += 1;
            } else {
                drop(self.kept.remove(place));
            }
        }
    }
}

#[derive(Drop)]
pub(crate) struct Pasts {
    alloc: Global,
    pasts: HashMap<Key, Past>,
}

impl Pasts {
    pub fn new(alloc: Global) -> Pasts
        ensures { (key : Key) → past_at result key ≡ no_past }
    {
        Pasts {
            alloc,
            pasts: HashMap::new(alloc),
        }
    }

    /// The greatest stamp of an access that was granted the key to read it.
    pub fn read(&self, key: Key) -> u64
        ensures { result ≡ (past_at self.now key).read }
    {
        match self.pasts.get(&key) {
            Some(past) => past.read,
            None => 0,
        }
    }

    /// Of the versions that are kept of the key, the one of the greatest number below the stamp.
    pub fn pick(&self, key: Key, stamp: u64) -> Option<&Version>
        ensures { option_map (λ v. v.now) result ≡ pick stamp (past_at self.now key).versions }
    {
        match self.pasts.get(&key) {
            Some(past) => past.pick(stamp),
            None => None,
        }
    }

    /// Makes room for this many more versions of the key.
    pub fn reserve(&mut self, key: Key, room: usize) -> Result<(), NoMemory>
        ensures ok { OnOk result (HasRoom key room self.new) }
        ensures same { Widens self.old self.new }
    {
        if let Some(past) = self.pasts.get_mut(&key) {
            return past.reserve(room);
        }
        let mut past = Past::new(self.alloc);
        past.reserve(room)?;
        self.pasts.insert(key, past)?;
        Ok(())
    }

    /// Keeps a version of the key, for which there is room.
    pub fn keep(&mut self, key: Key, version: Version)
        requires { 1 ≤ (past_at self.old key).spare }
        ensures { SetsPast self.old key (with_version version (past_at self.old key)) self.new }
    {
        if let Some(past) = self.pasts.get_mut(&key) {
            past.keep(version);
        }
    }

    /// Keeps the latest version of the key for an access of the stamp, unless that one finds it already.
    pub fn keep_latest(&mut self, key: Key, stamp: u64, version: Version)
        requires { 1 ≤ (past_at self.old key).spare }
        ensures { SetsPast self.old key (with_latest stamp version (past_at self.old key)) self.new }
    {
        let is_kept = match self.pick(key, stamp) {
            Some(kept) => kept.number == version.number,
            None => false,
        };
        if !is_kept {
            self.keep(key, version);
        }
    }

    /// An access of the stamp has read the key, of which something is kept.
    fn raise(&mut self, key: Key, stamp: u64)
        ensures { SetsPast self.old key (raised stamp (past_at self.old key)) self.new }
    {
        if let Some(past) = self.pasts.get_mut(&key) {
            past.raise(stamp);
        }
    }

    /// An access was granted: where it reads, it has read its key.
    pub fn grant(&mut self, key: Key, stamp: u64, mode: Mode)
        ensures { (other : Key) → past_at self.new other ≡ granted_at key stamp mode other (past_at self.old other) }
    {
        if mode.is_reading() {
            self.raise(key, stamp);
        }
    }

    /// These accesses were granted.
    pub fn grant_all(&mut self, waiters: &[Waiter])
        ensures { (key : Key) → past_at self.new key ≡ all_granted_at waiters.now key (past_at self.old key) }
    {
        for waiter in waiters {
            self.grant(waiter.key, waiter.stamp, waiter.mode);
        }
    }

    /// Drops the versions of the key that no waiting request would read.
    fn trim(&mut self, key: Key, requests: &[Request])
        ensures here { Trims requests.now (past_at self.old key) (past_at self.new key) }
        ensures there { (other : Key) → other ≢ key → past_at self.new other ≡ past_at self.old other }
    {
        if let Some(past) = self.pasts.get_mut(&key) {
            past.trim(requests);
        }
    }

    /// Drops the versions of these keys that nobody who waits would read.
    pub fn trim_all(&mut self, keys: &[Key], accesses: &Accesses)
        ensures { (key : Key) → Trims (requests_at accesses.now key) (past_at self.old key) (past_at self.new key) }
    {
        for key in keys {
            self.trim(*key, accesses.requests(*key));
        }
    }
}
