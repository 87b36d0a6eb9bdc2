//! The requests for each key.
ghost use Rattle.std.specs.Prelude.{◌≡◌, [], OnOk, OnErr};
ghost use Rattle.deneva_base.specs.declared.keys.Key.{Key};
ghost use Rattle.stamp_lines.specs.Requests.{is_stopped, first_writer, put_request, without, granted};
ghost use Rattle.stamp_lines.specs.Tables.{line_at, all_ended, all_granted, SetsLine, SameLines};

use crate::requests::{KeyAccesses, Request};
use deneva_base::{Attempt, Key, Mode, NoMemory};
use key_table::Table;
use std::alloc::Global;

/// A request that waits, with its key.
#[derive(Clone, Copy, Debug)]
pub struct Waiter {
    pub who: Attempt,
    pub stamp: u64,
    pub key: Key,
    pub mode: Mode,
}

/// The requests for each key, by rising stamp.
#[derive(Drop)]
pub(crate) struct Lines {
    lines: Table<Key, KeyAccesses>,
}

impl Lines {
    pub fn new(alloc: Global) -> Lines
        ensures { (key : Key) → line_at result key ≡ [] }
    {
        Lines {
            lines: Table::new(alloc),
        }
    }

    /// Whether an access is granted that writes and has a stamp above `from` and below `stamp`.
    pub fn is_stopped(&self, key: Key, from: u64, stamp: u64) -> bool
        ensures { result ≡ is_stopped from stamp (line_at self.now key) }
    {
        match self.lines.get(key) {
            Some(line) => line.is_stopped(from, stamp),
            None => false,
        }
    }

    /// The least stamp above `from` of an access that writes, granted or waiting, other than the ended attempt's.
    pub fn first_writer(&self, key: Key, from: u64, ended: Attempt) -> Option<u64>
        ensures { result ≡ first_writer from ended (line_at self.now key) }
    {
        match self.lines.get(key) {
            Some(line) => line.first_writer(from, ended),
            None => None,
        }
    }

    /// The requests for the key.
    pub fn requests(&self, key: Key) -> &[Request]
        ensures { result.now ≡ line_at self.now key }
    {
        match self.lines.get(key) {
            Some(line) => line.requests(),
            None => &[],
        }
    }

    /// Adds a request for the key.
    pub fn add(&mut self, key: Key, request: Request) -> Result<(), NoMemory>
        ensures ok { OnOk result (SetsLine self.old key (put_request request (line_at self.old key)) self.new) }
        ensures err { OnErr result (SameLines self.old self.new) }
    {
        let line = self.lines.slot(key)?;
        line.add(request)
    }

    /// Takes out the attempt's request for the key.
    pub fn end(&mut self, key: Key, who: Attempt)
        ensures { SetsLine self.old key (without who (line_at self.old key)) self.new }
    {
        if let Some(line) = self.lines.get_mut(key) {
            line.end(who);
        }
    }

    /// Takes out the attempt's requests for these keys.
    pub fn end_all(&mut self, keys: &[Key], who: Attempt)
        ensures { (other : Key) → line_at self.new other ≡ all_ended who keys.now other (line_at self.old other) }
    {
        for key in keys {
            self.end(*key, who);
        }
    }

    /// Grants the attempt's request for the key.
    fn wake(&mut self, key: Key, who: Attempt)
        ensures { SetsLine self.old key (granted who (line_at self.old key)) self.new }
    {
        if let Some(line) = self.lines.get_mut(key) {
            line.wake(who);
        }
    }

    /// Grants these requests.
    pub fn wake_all(&mut self, waiters: &[Waiter])
        ensures { (other : Key) → line_at self.new other ≡ all_granted waiters.now other (line_at self.old other) }
    {
        for waiter in waiters {
            self.wake(waiter.key, waiter.who);
        }
    }
}
