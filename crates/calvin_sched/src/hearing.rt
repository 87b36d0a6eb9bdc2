//! What a node says on batches and rows, and what it keeps of them.
ghost use Rattle.std.specs.Prelude.{◌≡◌, ◌++◌, ◌∷◌, [], filter, ◌&&◌, true, None, IfOk, OnOk, OnErr};
ghost use Rattle.std.specs.List.{flat_map};
ghost use Rattle.deneva_base.specs.Lists.{IsIn};
ghost use Rattle.deneva_base.specs.declared.numbers.TxnId as txns;
ghost use Rattle.row_store.specs.Stores.{row_in};
ghost use Rattle.txn_program.specs.Serial.{all_ids};
ghost use Rattle.server_core.specs.Calvin.{says, finished_mail};
ghost use Rattle.server_core.specs.CalvinScheduler.{participates};
ghost use Rattle.server_core.specs.declared.messages.Msg.TheVariants as msg;
ghost use Rattle.calvin_sched.specs.Arrivals.{arrivals_at};
ghost use Rattle.calvin_sched.specs.Asked.{all_free};
ghost use Rattle.calvin_sched.specs.Freed.{freed_by, put_numbers};
ghost use Rattle.calvin_sched.specs.Known.{HasNumbers, AreKnown};
ghost use Rattle.server_core.specs.Roles.{setting_of};
ghost use Rattle.calvin_sched.specs.Reading.{row_after, mails_after, is_complete};
ghost use Rattle.calvin_sched.specs.Tables.{queue_at};
ghost use Rattle.calvin_sched.specs.Hearing.{IsFitting, SaysOn, StandsWith, StandsStill};

use crate::node::CalvinNode;
use crate::rows::put_rows;
use deneva_base::{Access, IdList, Keyed, NoMemory, TxnId};
use server_core::{Mail, MailList, Msg, Outbox, SentRows};

impl<'w> CalvinNode<'w> {
    /// Sends the rows of those of these transactions that are ready.
    fn say_ready(&self, fresh: &[TxnId], out: &mut Outbox) -> Result<(), NoMemory>
        requires ids { (x : txns.TxnId) → IsIn x fresh.now → IsIn x (all_ids self.now.role.work.now) }
        ensures ok { OnOk result (out.new.mails ≡ out.old.mails ++ flat_map (mails_after (setting_of self.now.role) self.now.role.part (row_in self.now.store)) (filter (λ x. participates (setting_of self.now.role) x self.now.role.part && all_free (setting_of self.now.role) self.now.role.part (queue_at self.now.locks) x None) fresh.now)) }
        ensures err { OnErr result (out.new.mails ≡ out.old.mails) }
    {
        let mut mails = MailList::new(self.role.alloc);
        for id in &self.ready(fresh)? {
            self.push_reads(*id, &[], &mut mails)?;
        }
        out.say_all(mails)
    }

    /// Keeps a batch and takes those that are next in the global order: their transactions ask for locks.
    pub(crate) fn hear_batch(
        &mut self,
        epoch: u32,
        seq: u8,
        ids: &IdList,
        out: &mut Outbox,
    ) -> Result<(), NoMemory>
        requires fits { IsFitting self.old seq (msg.Batch epoch seq ids.now) }
        ensures role { self.new.role ≡ self.old.role }
        ensures says { OnOk result (SaysOn self.old seq (msg.Batch epoch seq ids.now) out.old.mails out.new.mails) }
        ensures stands { OnOk result (StandsWith self.old seq (msg.Batch epoch seq ids.now) self.new) }
        ensures same_mails { OnErr result (out.new.mails ≡ out.old.mails) }
        ensures same { OnErr result (StandsStill self.old self.new) }
    {
        let slot = epoch as usize * usize::from(self.role.config.parts) + usize::from(seq);
        let kept = ids.copy(self.role.alloc)?;
        let fresh = self.batches.fresh_ids(slot, ids.as_slice())?;
        let requests = self.requests_of(&fresh)?;
        self.locks.ask_all(&requests)?;
        match self.say_ready(&fresh, out) {
            Ok(()) => {
                self.batches.keep(slot, kept);
                Ok(())
            }
            Err(refused) => {
                self.locks.take_back(&requests);
                Err(refused)
            }
        }
    }

    /// What is said when a transaction finishes: to its home that it has, and the rows of those that become ready, in the
    /// order of their numbers.
    fn last_mails(&self, id: TxnId, here: &[Access], left: &[Keyed]) -> Result<MailList, NoMemory>
        requires id { IsIn id (all_ids self.now.role.work.now) }
        requires numbers { HasNumbers self.now.role self.now.numbers.items }
        requires known { AreKnown self.now.role self.now.locks }
        ensures { IfOk result (λ mails. mails ≡ finished_mail (setting_of self.now.role) self.now.role.part id ∷ flat_map (λ n. mails_after (setting_of self.now.role) self.now.role.part (row_after (row_in self.now.store) left.now) n.id) (put_numbers [] (freed_by (setting_of self.now.role) self.now.role.part (queue_at self.now.locks) id here.now))) }
    {
        let part = self.role.part;
        let mut mails = MailList::new(self.role.alloc);
        let number = self.number(id);
        mails.push(Mail {
            from: part,
            to: self.role.home(id),
            msg: Msg::Finished { id, part, number },
        })?;
        for number in &self.freed_numbers(id, here)? {
            self.push_reads(number.id, left, &mut mails)?;
        }
        Ok(mails)
    }

    /// Finishes a transaction here, the last of whose rows came.
    fn finish(
        &mut self,
        id: TxnId,
        part: u8,
        rows: &SentRows,
        out: &mut Outbox,
    ) -> Result<(), NoMemory>
        requires fits { IsFitting self.old part (msg.Rows id part rows.now) }
        requires complete { is_complete (setting_of self.old.role) (arrivals_at self.old.arrivals id) part id ≡ true }
        ensures role { self.new.role ≡ self.old.role }
        ensures says { OnOk result (SaysOn self.old part (msg.Rows id part rows.now) out.old.mails out.new.mails) }
        ensures stands { OnOk result (StandsWith self.old part (msg.Rows id part rows.now) self.new) }
        ensures same_mails { OnErr result (out.new.mails ≡ out.old.mails) }
        ensures same { OnErr result (StandsStill self.old self.new) }
    {
        let number = self.number(id);
        let here = self.role.accesses_here(id)?;
        let left = self.rows_left(id, part, rows.as_slice())?;
        let mails = self.last_mails(id, here.as_slice(), left.as_slice())?;
        self.store.reserve(left.len())?;
        out.reserve(mails.len())?;
        self.locks.leave(id, here.as_slice());
        self.arrivals.forget(id);
        put_rows(&mut self.store, number, left);
        out.append_all(mails);
        Ok(())
    }

    /// Keeps the rows of a participant, or finishes the transaction where they are the last.
    pub(crate) fn hear_rows(
        &mut self,
        id: TxnId,
        part: u8,
        rows: &SentRows,
        out: &mut Outbox,
    ) -> Result<(), NoMemory>
        requires fits { IsFitting self.old part (msg.Rows id part rows.now) }
        ensures role { self.new.role ≡ self.old.role }
        ensures says { OnOk result (SaysOn self.old part (msg.Rows id part rows.now) out.old.mails out.new.mails) }
        ensures stands { OnOk result (StandsWith self.old part (msg.Rows id part rows.now) self.new) }
        ensures same_mails { OnErr result (out.new.mails ≡ out.old.mails) }
        ensures same { OnErr result (StandsStill self.old self.new) }
    {
        if self.is_complete(id) {
            self.finish(id, part, rows, out)
        } else {
            let rows = rows.share()?;
            self.arrivals.add(id, part, rows)
        }
    }
}
