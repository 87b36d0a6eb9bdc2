//! An attempt with an access to the key ends.
ghost use Rattle.std.specs.Prelude.{◌≡◌, ◌++◌, ◌+◌, ◌<◌, true, OnOk};
ghost use Rattle.deneva_base.specs.declared.keys.Key.{Key};
ghost use Rattle.std.specs.Vec.{vec_len, vec_capacity};
ghost use Rattle.chain_control.specs.Requests.{has_request};
ghost use Rattle.chain_control.specs.Chains.{chain_of, without, committed, overtaken_by, with_link, unread, granted, trimmed, goers};
ghost use Rattle.chain_control.specs.Tables.{no_one};

use super::KeyVersions;
use crate::links::{ReadVersion, floor, read};
use crate::requests::{Waiter, has_request, is_awaited};
use deneva_base::{Attempt, Key, NoMemory, Number, Row};

impl KeyVersions {
    /// Puts the requests that wait and are to be granted when an attempt ends, which wrote the key where there is a number,
    /// at the end of a list.
    pub fn push_goers(
        &self,
        front: &mut Vec<Waiter>,
        key: Key,
        ended: Attempt,
        new: Option<Number>,
    ) -> Result<(), NoMemory>
        ensures { OnOk result (front.new.items ≡ front.old.items ++ goers key ended new (chain_of self.now)) }
    {
        let mut writer = 0;
        for request in &self.requests {
            if request.goes_past(writer, new) {
                front.push(request.waiter(key, new))?;
            }
            writer = request.writer_after(writer, ended);
        }
        Ok(())
    }

    /// Whether there is none.
    pub fn is_idle(&self, ended: Attempt, new: Option<Number>) -> bool
        ensures { (key : Key) → result ≡ no_one (goers key ended new (chain_of self.now)) }
    {
        let mut writer = 0;
        for request in &self.requests {
            if request.goes_past(writer, new) {
                return false;
            }
            writer = request.writer_after(writer, ended);
        }
        true
    }

    /// Takes out the attempt's request, whose room is then free.
    pub fn leave(&mut self, who: Attempt)
        ensures chain { chain_of self.new ≡ without who (chain_of self.old) }
        ensures room { has_request who self.old.requests.items ≡ true → vec_len self.new.links + vec_len self.new.requests < vec_capacity self.new.links }
    {
        self.requests.retain(|request| request.who != who);
    }

    /// Lets those that wait know of a version that comes.
    fn overtake(&mut self, number: Number)
        ensures { chain_of self.new ≡ overtaken_by number (chain_of self.old) }
    {
        for request in self.requests.iter_mut() {
            *request = request.overtaken(number);
        }
    }

    /// Adds a version, for which there is room.
    fn put(&mut self, number: Number, row: Row)
        requires room { vec_len self.old.links + vec_len self.old.requests < vec_capacity self.old.links }
        ensures { chain_of self.new ≡ with_link (unread number row) (chain_of self.old) }
    {
        let _ = self.links.push(ReadVersion {
            number,
            row,
            read: 0,
        });
    }

    /// Takes out the request of an attempt that commits under a number, with the row that it writes.
    pub fn commit(&mut self, keep: usize, who: Attempt, number: Number, row: Row)
        ensures { chain_of self.new ≡ committed keep who number row (chain_of self.old) }
    {
        if !has_request(&self.requests, who) {
            return;
        }
        self.leave(who);
        self.put(number, row);
        self.overtake(number);
        self.floor = floor(&self.links, keep);
    }

    /// Grants the attempt's request, which reads the version of this number.
    pub fn wake(&mut self, who: Attempt, version: Number, stamp: u64)
        ensures { chain_of self.new ≡ granted who version stamp (chain_of self.old) }
    {
        for request in self.requests.iter_mut() {
            *request = request.granted_to(who);
        }
        read(&mut self.links, version, stamp);
    }

    /// Drops the versions that are below the floor, but for those that a waiter is to read.
    pub fn trim(&mut self)
        ensures { chain_of self.new ≡ trimmed (chain_of self.old) }
    {
        let floor = self.floor;
        let requests = &self.requests;
        self.links.retain(|link| link.number.n >= floor || is_awaited(requests, link.number));
    }
}
