//! Which transactions become ready.
ghost use Rattle.std.specs.Prelude.{◌≡◌, ◌++◌, [], filter, ◌&&◌, ◌||◌, Some, None, IfOk, OnOk};
ghost use Rattle.std.specs.List.{list_all};
ghost use Rattle.deneva_base.specs.Lists.{IsIn};
ghost use Rattle.deneva_base.specs.Modes.{writes};
ghost use Rattle.deneva_base.specs.declared.numbers.TxnId as txns;
ghost use Rattle.txn_program.specs.Serial.{all_ids};
ghost use Rattle.server_core.specs.GlobalOrder.{number};
ghost use Rattle.server_core.specs.CalvinScheduler.{participates};
ghost use Rattle.calvin_sched.specs.Asked.{asked, all_free, requests_of};
ghost use Rattle.calvin_sched.specs.Freed.{freed_on, freed_by, put_numbers};
ghost use Rattle.calvin_sched.specs.Known.{HasNumbers, AreKnown};
ghost use Rattle.server_core.specs.Roles.{setting_of};
ghost use Rattle.calvin_sched.specs.Queues as queues;
ghost use Rattle.calvin_sched.specs.Tables.{queue_at};

use crate::node::CalvinNode;
use crate::requests::{Request, is_free};
use deneva_base::{Access, NoMemory, Number, TxnId};
use std::collections::BTreeSet;

impl<'w> CalvinNode<'w> {
    /// The number of a transaction.
    pub(crate) fn number(&self, id: TxnId) -> Number
        requires numbers { HasNumbers self.now.role self.now.numbers.items }
        requires id { IsIn id (all_ids self.now.role.work.now) }
        ensures { result ≡ number (setting_of self.now.role) id }
    {
        self.numbers[id.0 as usize - 1]
    }

    /// The requests of these transactions for locks here.
    pub(crate) fn requests_of(&self, ids: &[TxnId]) -> Result<Vec<Request>, NoMemory>
        requires ids { (x : txns.TxnId) → IsIn x ids.now → IsIn x (all_ids self.now.role.work.now) }
        ensures { IfOk result (λ requests. requests.items ≡ asked (setting_of self.now.role) self.now.role.part ids.now) }
    {
        let mut requests = Vec::new(self.role.alloc);
        for id in ids {
            self.push_requests(*id, &mut requests)?;
        }
        Ok(requests)
    }

    fn push_requests(&self, id: TxnId, requests: &mut Vec<Request>) -> Result<(), NoMemory>
        requires id { IsIn id (all_ids self.now.role.work.now) }
        ensures { OnOk result (requests.new.items ≡ requests.old.items ++ requests_of (setting_of self.now.role) self.now.role.part id) }
    {
        for access in self.role.accesses_here(id)?.as_slice() {
            requests.push(Request {
                key: access.key,
                id,
                writes: access.mode.is_writing(),
            })?;
        }
        Ok(())
    }

    /// Whether no request before those of the transaction conflicts with one of them. Those of a transaction that ends do
    /// not count.
    fn are_free(&self, id: TxnId, accesses: &[Access], ended: Option<TxnId>) -> bool
        ensures { result ≡ list_all (λ a. queues.is_free (writes a.mode) id ended (queue_at self.now.locks a.key)) accesses.now }
    {
        for access in accesses {
            let queue = self.locks.queue(access.key);
            if !is_free(queue, access.mode.is_writing(), id, ended) {
                return false;
            }
        }
        true
    }

    /// Whether the transaction takes part here and is ready.
    fn is_ready(&self, id: TxnId) -> Result<bool, NoMemory>
        requires id { IsIn id (all_ids self.now.role.work.now) }
        ensures { IfOk result (λ ready. ready ≡ (participates (setting_of self.now.role) id self.now.role.part && all_free (setting_of self.now.role) self.now.role.part (queue_at self.now.locks) id None)) }
    {
        let accesses = self.role.accesses_here(id)?;
        Ok(!accesses.is_empty() && self.are_free(id, accesses.as_slice(), None))
    }

    /// Those of these transactions that take part here and are ready.
    pub(crate) fn ready(&self, ids: &[TxnId]) -> Result<Vec<TxnId>, NoMemory>
        requires ids { (x : txns.TxnId) → IsIn x ids.now → IsIn x (all_ids self.now.role.work.now) }
        ensures { IfOk result (λ ready. ready.items ≡ filter (λ x. participates (setting_of self.now.role) x self.now.role.part && all_free (setting_of self.now.role) self.now.role.part (queue_at self.now.locks) x None) ids.now) }
    {
        let mut ready = Vec::new(self.role.alloc);
        for id in ids {
            if self.is_ready(*id)? {
                ready.push(*id)?;
            }
        }
        Ok(ready)
    }

    /// Whether a transaction with this request becomes ready when one that ends, with this access, leaves the queue.
    fn is_freed(&self, request: &Request, access: Access, ended: TxnId) -> Result<bool, NoMemory>
        requires id { IsIn request.now.id (all_ids self.now.role.work.now) }
        ensures { IfOk result (λ freed. freed ≡ ((request.now.writes || writes access.mode) && all_free (setting_of self.now.role) self.now.role.part (queue_at self.now.locks) request.now.id (Some ended))) }
    {
        if request.writes || access.mode.is_writing() {
            let accesses = self.role.accesses_here(request.id)?;
            Ok(self.are_free(request.id, accesses.as_slice(), Some(ended)))
        } else {
            Ok(false)
        }
    }

    /// Adds the transactions that become ready because one that ends, with this access, leaves the queue of its key.
    fn add_freed(
        &self,
        ended: TxnId,
        access: Access,
        freed: &mut BTreeSet<Number>,
    ) -> Result<(), NoMemory>
        requires numbers { HasNumbers self.now.role self.now.numbers.items }
        requires known { AreKnown self.now.role self.now.locks }
        ensures { OnOk result (freed.new.keys ≡ put_numbers freed.old.keys (freed_on (setting_of self.now.role) self.now.role.part (queue_at self.now.locks) ended access)) }
    {
        for request in self.locks.queue(access.key) {
            if request.id == ended {
                continue;
            }
            if self.is_freed(request, access, ended)? {
                freed.insert(self.number(request.id))?;
            }
            if request.writes {
                break;
            }
        }
        Ok(())
    }

    /// The numbers of the transactions that become ready when one ends that has these accesses here.
    pub(crate) fn freed_numbers(
        &self,
        ended: TxnId,
        accesses: &[Access],
    ) -> Result<BTreeSet<Number>, NoMemory>
        requires numbers { HasNumbers self.now.role self.now.numbers.items }
        requires known { AreKnown self.now.role self.now.locks }
        ensures { IfOk result (λ f. f.keys ≡ put_numbers [] (freed_by (setting_of self.now.role) self.now.role.part (queue_at self.now.locks) ended accesses.now)) }
    {
        let mut freed = BTreeSet::new(self.role.alloc);
        for access in accesses {
            self.add_freed(ended, *access, &mut freed)?;
        }
        Ok(freed)
    }
}
