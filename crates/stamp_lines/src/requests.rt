//! The requests for one key.
ghost use Rattle.std.specs.Prelude.{◌≡◌, [], OnOk, OnErr};
ghost use Rattle.stamp_lines.specs.Requests.{put_request, is_stopped, stops, first_writer, is_writer, grants_to, without, granted};

use deneva_base::{Attempt, Mode, NoMemory};
use key_table::Empty;
use std::alloc::Global;
use std::marker::Model;

/// An access that an attempt asked for: it is granted, or it waits.
#[derive(Clone, Copy, Debug)]
pub struct Request {
    pub who: Attempt,
    pub stamp: u64,
    pub mode: Mode,
    pub waits: bool,
}

impl Request {
    /// Whether it is granted and writes, with a stamp above `from` and below `stamp`.
    fn stops(&self, from: u64, stamp: u64) -> bool
        ensures { result ≡ stops from stamp self.now }
    {
        !self.waits && self.mode.is_writing() && from < self.stamp && self.stamp < stamp
    }

    /// Whether it writes, with a stamp above `from`, and is not of the attempt that ends.
    fn is_writer(&self, from: u64, ended: Attempt) -> bool
        ensures { result ≡ is_writer from ended self.now }
    {
        self.who != ended && self.mode.is_writing() && from < self.stamp
    }

    /// The request after those of this attempt are granted.
    fn granted_to(self, who: Attempt) -> Request
        ensures { result ≡ grants_to who self }
    {
        Request {
            waits: self.who != who && self.waits,
            ..self
        }
    }
}

/// The requests for a key, by rising stamp.
#[derive(Drop)]
pub(crate) struct KeyAccesses {
    requests: Vec<Request>,
}

impl Model for KeyAccesses {
    ghost use Rattle.std.specs.Prelude.{List};
    ghost use Rattle.stamp_lines.specs.declared.requests.Request.{Request};

    ghost Value = { List Request };

    ghost view = { λ l. l.requests.items };
}

impl Empty for KeyAccesses {
    ghost empty = { [] };

    fn empty(alloc: Global) -> KeyAccesses {
        KeyAccesses {
            requests: Vec::new(alloc),
        }
    }
}

impl KeyAccesses {
    pub fn requests(&self) -> &[Request]
        ensures { result.now ≡ self.now }
    {
        &self.requests
    }

    /// Whether an access is granted that writes and has a stamp above `from` and below `stamp`.
    pub fn is_stopped(&self, from: u64, stamp: u64) -> bool
        ensures { result ≡ is_stopped from stamp self.now }
    {
        for request in &self.requests {
            if request.stops(from, stamp) {
                return true;
            }
        }
        false
    }

    /// The least stamp above `from` of an access that writes, granted or waiting, other than the ended attempt's.
    pub fn first_writer(&self, from: u64, ended: Attempt) -> Option<u64>
        ensures { result ≡ first_writer from ended self.now }
    {
        for request in &self.requests {
            if request.is_writer(from, ended) {
                return Some(request.stamp);
            }
        }
        None
    }

    /// Puts a request in its place by stamp.
    pub fn add(&mut self, request: Request) -> Result<(), NoMemory>
        ensures ok { OnOk result (self.new ≡ put_request request self.old) }
        ensures err { OnErr result (self.new ≡ self.old) }
    {
        let mut place = 0;
        while place < self.requests.len() && self.requests[place].stamp < request.stamp {
            place += 1;
        }
        self.requests.insert(place, request)?;
        Ok(())
    }

    /// Takes out an attempt's request.
    pub fn end(&mut self, who: Attempt)
        ensures { self.new ≡ without who self.old }
    {
        self.requests.retain(|request| request.who != who);
    }

    /// Grants an attempt's request.
    pub fn wake(&mut self, who: Attempt)
        ensures { self.new ≡ granted who self.old }
    {
        for place in 0..self.requests.len() {
            let request = self.requests[place];
            self.requests[place] = request.granted_to(who);
        }
    }
}
