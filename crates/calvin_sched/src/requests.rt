//! Requests for the locks of keys.
ghost use Rattle.std.specs.Prelude.{◌≡◌, []};
ghost use Rattle.calvin_sched.specs.Queues.{is_free, without_first};

use deneva_base::{Key, TxnId};
use std::alloc::Global;

/// A transaction asks for the lock of a key, to read or to write.
#[derive(Clone, Copy, Debug)]
pub(crate) struct Request {
    pub key: Key,
    pub id: TxnId,
    pub writes: bool,
}

/// The requests for the lock of one key, in the order of their transactions' numbers.
#[derive(Drop)]
pub(crate) struct Queue {
    pub requests: Vec<Request>,
}

impl Queue {
    pub fn new(alloc: Global) -> Queue
        ensures { result.requests.items ≡ [] }
    {
        Queue {
            requests: Vec::new(alloc),
        }
    }

    /// Takes out the transaction's request.
    pub fn leave(&mut self, id: TxnId)
        ensures { self.new.requests.items ≡ without_first id self.old.requests.items }
    {
        let mut place = 0;
        while place < self.requests.len() && self.requests[place].id != id {
            place += 1;
        }
        if place < self.requests.len() {
            self.requests.remove(place);
        }
    }
}

/// Whether no request before the transaction's own conflicts with it, where it asks to write or not. Those of a
/// transaction that ends do not count.
pub(crate) fn is_free(queue: &[Request], writes: bool, id: TxnId, ended: Option<TxnId>) -> bool
    ensures { result ≡ is_free writes id ended queue.now }
{
    for request in queue {
        if request.id == id {
            return true;
        }
        if ended != Some(request.id) && (writes || request.writes) {
            return false;
        }
    }
    true
}
