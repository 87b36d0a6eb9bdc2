//! The locks of the keys of a partition.
ghost use Rattle.std.specs.Prelude.{◌≡◌, ◌++◌, ◌∷◌, [], List, OnOk, OnErr};
ghost use Rattle.deneva_base.specs.declared.keys.Key.{Key};
ghost use Rattle.calvin_sched.specs.Queues.{for_key, left_by, without_first};
ghost use Rattle.calvin_sched.specs.Tables.{queue_at, SetsQueue, SameQueues};
ghost use Rattle.calvin_sched.specs.declared.requests.Request as requests;

use crate::requests::{Queue, Request};
use deneva_base::{Access, Key, NoMemory, TxnId};
use std::alloc::Global;
use std::collections::HashMap;

/// Who holds or waits for the lock of each key. The first requests of a queue hold it: one that writes, or all that read
/// before one that writes.
#[derive(Drop)]
pub(crate) struct LockTable {
    alloc: Global,
    queues: HashMap<Key, Queue>,
}

impl LockTable {
    pub fn new(alloc: Global) -> LockTable
        ensures { (key : Key) → queue_at result key ≡ [] }
    {
        LockTable {
            alloc,
            queues: HashMap::new(alloc),
        }
    }

    /// The requests for the lock of a key.
    pub fn queue(&self, key: Key) -> &[Request]
        ensures { result.now ≡ queue_at self.now key }
    {
        match self.queues.get(&key) {
            Some(queue) => &queue.requests,
            None => &[],
        }
    }

    /// Puts a request at the end of its queue.
    fn ask(&mut self, request: Request) -> Result<(), NoMemory>
        ensures ok { OnOk result (SetsQueue self.old request.key (queue_at self.old request.key ++ request ∷ []) self.new) }
        ensures err { OnErr result (SameQueues self.old self.new) }
    {
        if let Some(queue) = self.queues.get_mut(&request.key) {
            queue.requests.push(request)?;
            return Ok(());
        }
        let mut first = Queue::new(self.alloc);
        first.requests.push(request)?;
        self.queues.insert(request.key, first)?;
        Ok(())
    }

    /// Takes the last request out of the queue of a key.
    fn take_back_one(&mut self, key: Key)
        ensures { (rest : List requests.Request) (last : requests.Request) → queue_at self.old key ≡ rest ++ last ∷ [] → SetsQueue self.old key rest self.new }
    {
        if let Some(queue) = self.queues.get_mut(&key) {
            queue.requests.pop();
        }
    }

    /// Takes back these requests, which were put last.
    pub fn take_back(&mut self, asked: &[Request])
        ensures { (before : Key → List requests.Request) → ((key : Key) → queue_at self.old key ≡ before key ++ for_key key asked.now) → (key : Key) → queue_at self.new key ≡ before key }
    {
        for request in asked {
            self.take_back_one(request.key);
        }
    }

    /// Puts requests at the ends of their queues, in their order: all of them, or none where there is no memory.
    pub fn ask_all(&mut self, asked: &[Request]) -> Result<(), NoMemory>
        ensures ok { OnOk result ((key : Key) → queue_at self.new key ≡ queue_at self.old key ++ for_key key asked.now) }
        ensures err { OnErr result (SameQueues self.old self.new) }
    {
        for place in 0..asked.len() {
            if let Err(refused) = self.ask(asked[place]) {
                self.take_back(&asked[..place]);
                return Err(refused);
            }
        }
        Ok(())
    }

    /// Takes the transaction's request for a key out of its queue.
    fn leave_one(&mut self, key: Key, id: TxnId)
        ensures { SetsQueue self.old key (without_first id (queue_at self.old key)) self.new }
    {
        if let Some(queue) = self.queues.get_mut(&key) {
            queue.leave(id);
        }
    }

    /// Takes the transaction's requests for these accesses out of their queues.
    pub fn leave(&mut self, id: TxnId, accesses: &[Access])
        ensures { (key : Key) → queue_at self.new key ≡ left_by id accesses.now key (queue_at self.old key) }
    {
        for access in accesses {
            self.leave_one(access.key, id);
        }
    }
}
