//! The accesses of a partition.
ghost use Rattle.std.specs.Prelude.{◌≡◌, ◌≢◌, ◌≤◌, ◌<◌, ◌^◌, true, length, IfErr, OnOk, OnErr};
ghost use Rattle.deneva_base.specs.Lists.{IsIn};
ghost use Rattle.deneva_base.specs.declared.rows.Keyed.{Keyed};
ghost use Rattle.row_store.specs.Stores.{has};
ghost use Rattle.stamp_lines.specs.declared.requests.Request.{Request};
ghost use Rattle.stamp_lines.specs.Requests.{is_stopped, first_writer};
ghost use Rattle.stamp_lines.specs.Tables.{requests_at, part_of, waiting_of};
ghost use Rattle.stamp_lines.specs.Changes.{IsFresh, Same, Adds, Promises, Ends, Wakes};

use crate::lines::{Lines, Waiter};
use crate::requests::Request;
use control_core::PrepareNoMemory;
use deneva_base::{Attempt, Key, NoMemory, Number, RowList};
use row_store::Store;
use shelf::{Ended, Shelf};

/// The rows and what each attempt has here, the accesses by key, and how many wait.
#[derive(Drop)]
pub struct Accesses {
    shelf: Shelf,
    lines: Lines,
    waiting: usize,
}

impl Accesses {
    pub fn new(store: Store) -> Accesses
        ensures { IsFresh store result }
    {
        let alloc = store.allocator();
        Accesses {
            shelf: Shelf::new(store),
            lines: Lines::new(alloc),
            waiting: 0,
        }
    }

    /// The rows, and what each attempt has here.
    pub fn shelf(&self) -> &Shelf
        ensures { result.now ≡ self.now.shelf }
    {
        &self.shelf
    }

    /// The requests for the key, by rising stamp.
    pub fn requests(&self, key: Key) -> &[Request]
        ensures { result.now ≡ requests_at self.now key }
    {
        self.lines.requests(key)
    }

    /// How many requests wait.
    pub fn waiting(&self) -> usize
        ensures { result ≡ waiting_of self.now }
    {
        self.waiting
    }

    /// Whether an access to the key is granted that writes and has a stamp above `from` and below `stamp`.
    pub fn is_stopped(&self, key: Key, from: u64, stamp: u64) -> bool
        ensures { result ≡ is_stopped from stamp (requests_at self.now key) }
    {
        self.lines.is_stopped(key, from, stamp)
    }

    /// The least stamp above `from` of an access to the key that writes, granted or waiting, other than the ended
    /// attempt's.
    pub fn first_writer(&self, key: Key, from: u64, ended: Attempt) -> Option<u64>
        ensures { result ≡ first_writer from ended (requests_at self.now key) }
    {
        self.lines.first_writer(key, from, ended)
    }

    /// Adds a request for a key that the attempt has not asked for.
    pub fn add(&mut self, key: Key, request: Request) -> Result<(), NoMemory>
        requires once { (r : Request) → IsIn r (requests_at self.old key) → r.who ≢ request.who }
        requires few { waiting_of self.old < 2 ^ 63 }
        ensures ok { OnOk result (Adds key request self.old self.new) }
        ensures err { OnErr result (Same self.old self.new) }
    {
        self.lines.add(key, request)?;
        if let Err(refused) = self.shelf.note(request.who, request.stamp, key) {
            self.lines.end(key, request.who);
            return Err(refused);
        }
        if request.waits {
            self.waiting += 1;
        }
        Ok(())
    }

    /// Keeps the rows that the attempt voted to commit, those that it writes twice, with room for those that it appends. If
    /// there is no memory for that, they are handed back.
    pub fn promise(
        &mut self,
        who: Attempt,
        writes: RowList,
        appends: RowList,
    ) -> Result<(), PrepareNoMemory>
        ensures ok { OnOk result (Promises who writes appends self.old self.new) }
        ensures err { OnErr result (Same self.old self.new) }
        ensures returned { IfErr result (λ e. (e.writes ≡ writes) × (e.appends ≡ appends)) }
    {
        self.shelf.promise_copied(who, writes, appends)
    }

    /// Takes out the attempt and its requests. If there is a number, it commits, and its rows are written under it.
    pub fn end(&mut self, who: Attempt, number: Option<Number>) -> Ended
        requires present { (w : Keyed) → IsIn w (part_of self.old who).writes → has self.old.shelf.store w.key ≡ true }
        requires promised { length (part_of self.old who).appends ≤ self.old.shelf.promised }
        requires room { self.old.shelf.promised ≤ self.old.shelf.store.spare }
        ensures keys { result.keys.items ≡ (part_of self.old who).keys }
        ensures copies { result.copies ≡ (part_of self.old who).copies }
        ensures rest { Ends who number self.old self.new }
    {
        let ended = self.shelf.end(who, number);
        self.lines.end_all(&ended.keys, who);
        ended
    }

    /// Grants these requests.
    pub fn wake_all(&mut self, waiters: &[Waiter])
        requires { length waiters.now ≤ waiting_of self.old }
        ensures { Wakes waiters.now self.old self.new }
    {
        self.waiting -= waiters.len();
        self.lines.wake_all(waiters);
    }
}
