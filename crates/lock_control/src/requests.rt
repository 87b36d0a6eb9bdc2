//! The requests for one key.
ghost use Rattle.std.specs.Prelude.{◌≡◌, [], None, Some, IfOk, OnOk, OnErr};
ghost use Rattle.protocol_rules.specs.WaitDie.{none};
ghost use Rattle.lock_control.specs.Requests.{conflicting, least_bar, is_stopped, is_barred, any_conflicts, front_of, mode_in, grants_to};
ghost use Rattle.lock_control.specs.Locks.{no_locks, with_request, without, raised, ended_in, granted_in, bound_at};

use deneva_base::{Attempt, Mode, NoMemory, Number};
use key_table::Empty;
use std::alloc::Global;
use std::marker::Model;

/// An access that an attempt asked for: it is granted, or it waits.
#[derive(Clone, Copy, Debug)]
pub(crate) struct Request {
    pub who: Attempt,
    pub stamp: u64,
    pub mode: Mode,
    pub waits: bool,
}

impl Request {
    /// Whether two requests for one key conflict: they are of different attempts, and one of them writes.
    pub fn conflicts(&self, other: &Request) -> bool
        ensures { result ≡ conflicting self.now other.now }
    {
        self.who != other.who && (self.mode.is_writing() || other.mode.is_writing())
    }

    /// The request after those of this attempt are granted.
    pub fn granted_to(self, who: Attempt) -> Request
        ensures { result ≡ grants_to who self }
    {
        Request {
            waits: self.who != who && self.waits,
            ..self
        }
    }
}

/// Whether one of these requests conflicts.
fn any_conflicts(requests: &[Request], asked: &Request) -> bool
    ensures { result ≡ any_conflicts asked.now requests.now }
{
    for request in requests {
        if request.conflicts(asked) {
            return true;
        }
    }
    false
}

/// The requests for a key, by falling stamp, and the greatest numbers under which an attempt with an access to the key
/// committed: of all, and of those that wrote.
#[derive(Drop)]
pub(crate) struct KeyLocks {
    requests: Vec<Request>,
    accessed: u64,
    written: u64,
}

impl Model for KeyLocks {
    ghost use Rattle.lock_control.specs.Seen.{Locks};

    ghost Value = { Locks };

    ghost view = { λ l. record { requests = l.requests.items; accessed = l.accessed; written = l.written } };
}

impl Empty for KeyLocks {
    ghost empty = { no_locks };

    fn empty(alloc: Global) -> KeyLocks {
        KeyLocks {
            requests: Vec::new(alloc),
            accessed: 0,
            written: 0,
        }
    }
}

impl KeyLocks {
    /// The owner of the least attempt that conflicts and whose stamp is below `below`.
    pub fn least_bar(&self, asked: &Request, below: u64) -> Option<Request>
        ensures { result ≡ least_bar asked.now below None self.now.requests }
    {
        let mut least: Option<Request> = None;
        for request in &self.requests {
            if !request.waits && request.conflicts(asked) && request.stamp < below {
                least = match least {
                    Some(found) if found.who <= request.who => Some(found),
                    _ => Some(*request),
                };
            }
        }
        least
    }

    /// Whether an owner conflicts, or a request that waits and has a greater stamp.
    pub fn is_stopped(&self, asked: &Request) -> bool
        ensures { result ≡ is_stopped asked.now self.now.requests }
    {
        for request in &self.requests {
            if request.conflicts(asked) && (!request.waits || asked.stamp < request.stamp) {
                return true;
            }
        }
        false
    }

    /// Whether an owner conflicts, other than the attempt that ends.
    pub fn is_barred(&self, asked: &Request, ended: Attempt) -> bool
        ensures { result ≡ is_barred ended asked.now self.now.requests }
    {
        for request in &self.requests {
            if !request.waits && request.who != ended && request.conflicts(asked) {
                return true;
            }
        }
        false
    }

    /// The requests from the front that wait and are to be granted when an attempt ends: up to the first that conflicts
    /// with an owner, those before it among the owners.
    pub fn front(&self, alloc: Global, ended: Attempt) -> Result<Vec<Request>, NoMemory>
        ensures { IfOk result (λ front. front.items ≡ front_of ended self.now.requests [] self.now.requests) }
    {
        let mut front = Vec::new(alloc);
        for request in &self.requests {
            if request.waits {
                if self.is_barred(request, ended) || any_conflicts(&front, request) {
                    return Ok(front);
                }
                front.push(*request)?;
            }
        }
        Ok(front)
    }

    /// Whether none of the requests is to be granted when an attempt ends.
    pub fn is_idle(&self, ended: Attempt) -> bool
        ensures { result ≡ none (front_of ended self.now.requests [] self.now.requests) }
    {
        for request in &self.requests {
            if request.waits {
                return self.is_barred(request, ended);
            }
        }
        true
    }

    /// Puts a request in its place by stamp.
    pub fn add(&mut self, request: Request) -> Result<(), NoMemory>
        ensures ok { OnOk result (self.new ≡ with_request request self.old) }
        ensures err { OnErr result (self.new ≡ self.old) }
    {
        let mut place = 0;
        while place < self.requests.len() && self.requests[place].stamp > request.stamp {
            place += 1;
        }
        self.requests.insert(place, request)?;
        Ok(())
    }

    /// The mode of an attempt's access.
    pub fn mode_of(&self, who: Attempt) -> Option<Mode>
        ensures { result ≡ mode_in who self.now.requests }
    {
        for request in &self.requests {
            if request.who == who {
                return Some(request.mode);
            }
        }
        None
    }

    /// Takes out an attempt's request.
    fn take_out(&mut self, who: Attempt)
        ensures { self.new ≡ without who self.old }
    {
        self.requests.retain(|request| request.who != who);
    }

    /// The greatest number under which an attempt committed whose access conflicted with that of this one.
    pub fn bound(&self, who: Attempt) -> u64
        ensures { result ≡ bound_at who self.now }
    {
        match self.mode_of(who) {
            Some(mode) if mode.is_writing() => self.accessed,
            Some(_) => self.written,
            None => 0,
        }
    }

    /// Notes that the attempt commits, where it has a number.
    fn raise(&mut self, who: Attempt, number: Option<Number>)
        ensures { self.new ≡ raised who number self.old }
    {
        if let (Some(number), Some(mode)) = (number, self.mode_of(who)) {
            self.accessed = self.accessed.max(number.n);
            if mode.is_writing() {
                self.written = self.written.max(number.n);
            }
        }
    }

    /// Takes out an attempt's request. Where it commits, its number counts for the votes to come.
    pub fn end(&mut self, who: Attempt, number: Option<Number>)
        ensures { self.new ≡ ended_in who number self.old }
    {
        self.raise(who, number);
        self.take_out(who);
    }

    /// Grants an attempt's request.
    pub fn wake(&mut self, who: Attempt)
        ensures { self.new ≡ granted_in who self.old }
    {
        for place in 0..self.requests.len() {
            let request = self.requests[place];
            self.requests[place] = request.granted_to(who);
        }
    }
}
