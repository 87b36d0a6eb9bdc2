//! The home transactions that are started and not over.
ghost use Rattle.std.specs.Prelude.{◌≡◌, ◌<◌, ◌++◌, length, Some, None, OnOk, OnErr, ◌==◌};
ghost use Rattle.std.specs.List.{list_all};
ghost use Rattle.deneva_base.specs.Lists.{IsIn};
ghost use Rattle.deneva_base.specs.declared.numbers.TxnId as ids;
ghost use Rattle.txn_program.specs.Serial.{all_ids};
ghost use Rattle.server_core.specs.Roles.{setting_of};
ghost use Rattle.coord.specs.Attempts.{state_of, reply_of};
ghost use Rattle.coord.specs.Open.{state_at, SetsState, SameStates, WithState};
ghost use Rattle.coord.specs.States as states;
ghost use Rattle.coord.specs.States.{State, kept_stamp, granted_mails, refused_mails, voted_mails, with_left, without};

use crate::attempts::Attempting;
use crate::replies::Grant;
use deneva_base::{Attempt, NoMemory, TxnId};
use server_core::{Ballot, Outbox, Role};
use std::alloc::Global;
use std::collections::HashMap;

/// The current attempt of each of them.
#[derive(Drop)]
pub(crate) struct OpenTxns {
    attempts: HashMap<TxnId, Attempting>,
}

impl OpenTxns {
    pub fn new(alloc: Global) -> OpenTxns
        ensures { (x : ids.TxnId) → state_at result x ≡ None }
    {
        OpenTxns {
            attempts: HashMap::new(alloc),
        }
    }

    /// The stamp of the current attempt, and 0 where there is none.
    pub fn stamp(&self, id: TxnId) -> u64
        ensures { result ≡ kept_stamp (state_at self.now id) }
    {
        match self.attempts.get(&id) {
            Some(attempt) => attempt.stamp,
            None => 0,
        }
    }

    /// Opens a transaction, or has it go on with a new attempt.
    pub fn insert(&mut self, id: TxnId, attempt: Attempting) -> Result<(), NoMemory>
        ensures ok { OnOk result (SetsState self.old id (Some (state_of attempt)) self.new) }
        ensures err { OnErr result (SameStates self.old self.new) }
    {
        self.attempts.insert(id, attempt)?;
        Ok(())
    }

    /// The transaction is over.
    pub fn remove(&mut self, id: TxnId)
        ensures { SetsState self.old id None self.new }
    {
        drop(self.attempts.remove(&id));
    }

    /// The access that the attempt asked for is granted.
    pub fn hear_grant(
        &mut self,
        role: &Role<'_>,
        who: Attempt,
        grant: Grant<'_>,
        out: &mut Outbox,
    ) -> Result<(), NoMemory>
        requires { IsIn who.txn (all_ids role.now.work.now) }
        ensures ok { OnOk result (WithState self.old who.txn (λ t. SetsState self.old who.txn (Some (states.granted (setting_of role.now) (reply_of grant.entry) t)) self.new)) }
        ensures said { OnOk result (WithState self.old who.txn (λ t. out.new.mails ≡ out.old.mails ++ granted_mails (setting_of role.now) role.now.part who (reply_of grant.entry) t)) }
        ensures err { OnErr result (SameStates self.old self.new) }
        ensures same_mails { OnErr result (out.new.mails ≡ out.old.mails) }
    {
        match self.attempts.get_mut(&who.txn) {
            Some(attempt) => attempt.hear_grant(role, who, grant, out),
            None => Ok(()),
        }
    }

    /// It is refused.
    pub fn hear_refusal(
        &mut self,
        role: &Role<'_>,
        who: Attempt,
        out: &mut Outbox,
    ) -> Result<(), NoMemory>
        requires { WithState self.old who.txn (λ t. t.granted < length t.accesses) }
        ensures ok { OnOk result (WithState self.old who.txn (λ t. SetsState self.old who.txn (Some (states.refused (setting_of role.now) t)) self.new)) }
        ensures said { OnOk result (WithState self.old who.txn (λ t. out.new.mails ≡ out.old.mails ++ refused_mails (setting_of role.now) role.now.part who t)) }
        ensures err { OnErr result (SameStates self.old self.new) }
        ensures same_mails { OnErr result (out.new.mails ≡ out.old.mails) }
    {
        match self.attempts.get_mut(&who.txn) {
            Some(attempt) => attempt.hear_refusal(role, who, out),
            None => Ok(()),
        }
    }

    /// A participant votes.
    pub fn hear_vote(
        &mut self,
        role: &Role<'_>,
        who: Attempt,
        ballot: Ballot,
        out: &mut Outbox,
    ) -> Result<(), NoMemory>
        ensures ok { OnOk result (WithState self.old who.txn (λ t. SetsState self.old who.txn (Some (states.voted (setting_of role.now) ballot t)) self.new)) }
        ensures said { OnOk result (WithState self.old who.txn (λ t. out.new.mails ≡ out.old.mails ++ voted_mails (setting_of role.now) role.now.part who ballot t)) }
        ensures err { OnErr result (SameStates self.old self.new) }
        ensures same_mails { OnErr result (out.new.mails ≡ out.old.mails) }
    {
        match self.attempts.get_mut(&who.txn) {
            Some(attempt) => attempt.hear_vote(role, who, ballot, out),
            None => Ok(()),
        }
    }

    /// Whether the attempt has ended everywhere but at this partition.
    pub fn is_last(&self, id: TxnId, part: u8) -> bool
        ensures { WithState self.now id (λ t. result ≡ list_all (λ q. q == part) t.left) }
    {
        match self.attempts.get(&id) {
            Some(attempt) => attempt.is_last(part),
            None => false,
        }
    }

    /// It has ended at this partition.
    pub fn close_at(&mut self, id: TxnId, part: u8)
        ensures { WithState self.old id (λ t. SetsState self.old id (Some (with_left (without part t.left) t)) self.new) }
    {
        if let Some(attempt) = self.attempts.get_mut(&id) {
            attempt.close_at(part);
        }
    }
}
