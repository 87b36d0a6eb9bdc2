//! The unended accesses to one key.
ghost use Rattle.std.specs.Prelude.{◌≡◌, ◌<◌, ◌^◌, map, IfSome, OnOk, OnErr};
ghost use Rattle.range_control.specs.Accesses.{no_accesses, past_over, own_in, low_in, left_by, upper_in, is_writing, prepared_in, prepared, overtaken, passed, without, ended_in, with_access};
ghost use Rattle.range_control.specs.Ends.{first_by, upper_before};

use crate::ends::{Upper, least_upper};
use deneva_base::{Attempt, Mode, NoMemory, Number};
use key_table::Empty;
use std::alloc::Global;
use std::marker::Model;

/// The window that an attempt voted, and whether it is to write the key.
#[derive(Clone, Copy, Debug)]
pub(crate) struct Window {
    pub lo: u64,
    pub hi: u64,
    pub writes: bool,
}

/// A granted access of an attempt that has not ended: the version that it was granted, the least upper end that committed
/// attempts leave it, and its window once it has prepared.
#[derive(Clone, Copy, Debug)]
pub(crate) struct Held {
    pub who: Attempt,
    pub mode: Mode,
    pub version: Number,
    pub upper: Option<Upper>,
    pub window: Option<Window>,
}

impl Held {
    /// The upper end that this access leaves one of another attempt: one below its window, where it is to write the key
    /// and ends above the version that the other read.
    fn left_for(&self, other: &Held) -> Option<Upper>
        ensures { result ≡ left_by other.now.who other.now.version self.now }
    {
        match self.window {
            Some(window) if self.who != other.who => {
                if window.writes && other.version.n < window.hi {
                    let n = window.lo.saturating_sub(1);
                    Some(Upper { n, by: self.who })
                } else {
                    None
                }
            }
            _ => None,
        }
    }

    /// Whether its attempt is to write the key.
    fn is_writing(&self) -> bool
        ensures { result ≡ is_writing self.now.window }
    {
        match self.window {
            Some(window) => window.writes,
            None => false,
        }
    }

    /// The access once this attempt has the window.
    fn prepared(self, who: Attempt, window: Window) -> Held
        ensures { result ≡ prepared_in who window self }
    {
        Held {
            window: if self.who == who {
                Some(window)
            } else {
                self.window
            },
            ..self
        }
    }

    /// The access once an attempt has written the key under a number: one that read a lesser version ends before it.
    fn overtaken(self, by: Attempt, number: Number) -> Held
        ensures { result ≡ overtaken by number self }
    {
        if !self.mode.is_reading() || number <= self.version {
            return self;
        }
        let n = number.n.saturating_sub(1);
        Held {
            upper: least_upper(self.upper, Some(Upper { n, by })),
            ..self
        }
    }
}

/// The unended accesses to a key, the oldest first, and one past the greatest number under which an attempt with an access
/// to it committed.
#[derive(Drop)]
pub(crate) struct KeyAccesses {
    held: Vec<Held>,
    past: u64,
}

impl Model for KeyAccesses {
    ghost use Rattle.range_control.specs.Seen.{Accesses};

    ghost Value = { Accesses };

    ghost view = { λ l. record { held = l.held.items; past = l.past } };
}

impl Empty for KeyAccesses {
    ghost empty = { no_accesses };

    fn empty(alloc: Global) -> KeyAccesses {
        KeyAccesses {
            held: Vec::new(alloc),
            past: 0,
        }
    }
}

impl KeyAccesses {
    /// One past all numbers of committed attempts and all upper ends of prepared ones that accessed the key.
    pub fn past(&self) -> u64
        requires small { past_over self.now < 2 ^ 64 }
        ensures { result ≡ past_over self.now }
    {
        let mut past = self.past;
        for held in &self.held {
            if let Some(window) = held.window {
                past = past.max(window.hi + 1);
            }
        }
        past
    }

    /// The attempt's access.
    fn own(&self, who: Attempt) -> Option<Held>
        ensures { result ≡ own_in who self.now.held }
    {
        for held in &self.held {
            if held.who == who {
                return Some(*held);
            }
        }
        None
    }

    /// What the attempt's access asks of the lower end: one past the version that it read, and where the key is to be
    /// written what passes all its accesses.
    pub fn low(&self, who: Attempt, is_written: bool) -> u64
        requires past { past_over self.now < 2 ^ 64 }
        requires low { low_in is_written (past_over self.now) (own_in who self.now.held) < 2 ^ 64 }
        ensures { result ≡ low_in is_written (past_over self.now) (own_in who self.now.held) }
    {
        let Some(own) = self.own(who) else {
            return 0;
        };
        let read = if own.mode.is_reading() {
            own.version.n + 1
        } else {
            0
        };
        if is_written {
            read.max(self.past())
        } else {
            read
        }
    }

    /// The least upper end that committed and prepared attempts leave this access.
    fn upper_of(&self, own: &Held) -> Option<Upper>
        ensures { result ≡ first_by upper_before (left_by own.now.who own.now.version) own.now.upper self.now.held }
    {
        let mut best = own.upper;
        for held in &self.held {
            best = least_upper(best, held.left_for(own));
        }
        best
    }

    /// The least upper end that they leave the attempt's access, where it reads.
    pub fn upper(&self, who: Attempt) -> Option<Upper>
        ensures { result ≡ upper_in self.now.held (own_in who self.now.held) }
    {
        match self.own(who) {
            Some(own) if own.mode.is_reading() => self.upper_of(&own),
            _ => None,
        }
    }

    /// Adds an access.
    pub fn add(&mut self, access: Held) -> Result<(), NoMemory>
        ensures ok { OnOk result (self.new ≡ with_access access self.old) }
        ensures err { OnErr result (self.new ≡ self.old) }
    {
        self.held.push(access)?;
        Ok(())
    }

    /// Gives the attempt's access its window.
    pub fn prepare(&mut self, who: Attempt, window: Window)
        ensures { self.new ≡ prepared who window self.old }
    {
        for held in self.held.iter_mut() {
            *held = held.prepared(who, window);
        }
    }

    /// Lowers the upper ends of the accesses to versions that an attempt has overwritten.
    fn overtake(&mut self, by: Attempt, number: Number)
        ensures held { self.new.held ≡ map (overtaken by number) self.old.held }
        ensures past { self.new.past ≡ self.old.past }
    {
        for held in self.held.iter_mut() {
            *held = held.overtaken(by, number);
        }
    }

    /// Where the attempt has an access, its number counts for the others.
    fn pass(&mut self, who: Attempt, number: Number)
        requires small { number.n < 2 ^ 48 }
        ensures { self.new ≡ passed who number (own_in who self.old.held) self.old }
    {
        let Some(own) = self.own(who) else {
            return;
        };
        self.past = self.past.max(number.n + 1);
        if own.is_writing() {
            self.overtake(who, number);
        }
    }

    /// Takes out the attempt's access.
    fn leave(&mut self, who: Attempt)
        ensures { self.new ≡ without who self.old }
    {
        self.held.retain(|held| held.who != who);
    }

    /// Takes out the access of an attempt, which commits where it has a number.
    pub fn end(&mut self, who: Attempt, number: Option<Number>)
        requires small { IfSome number (λ n. n.n < 2 ^ 48) }
        ensures { self.new ≡ ended_in who number self.old }
    {
        if let Some(number) = number {
            self.pass(who, number);
        }
        self.leave(who);
    }
}
