//! The current attempt of a transaction at its home.
ghost use Rattle.std.specs.Prelude.{◌≡◌, ◌++◌, ◌<◌, ◌≤◌, ◌^◌, ◌+◌, length, slice_get, OnOk, OnErr, None, ◌==◌};
ghost use Rattle.std.specs.List.{list_all};
ghost use Rattle.deneva_base.specs.Lists.{IsIn};
ghost use Rattle.txn_program.specs.Serial.{all_ids};
ghost use Rattle.server_core.specs.Received.{Reply};
ghost use Rattle.server_core.specs.Roles.{setting_of};
ghost use Rattle.coord.specs.Attempts.{state_of, reply_of};
ghost use Rattle.coord.specs.States as states;
ghost use Rattle.coord.specs.States.{State, begun, taken, going_on, next_mails, granted_mails, refused_mails, decision_mails, voted_mails, with_left, without};

use crate::ballots::{Decision, decide};
use crate::replies::{Grant, greater_bound, take_out};
use crate::saying::{Ending, ask_mail, say_prepares, say_to_all};
use deneva_base::{Access, AccessList, Attempt, Bound, Key, Keyed, NoMemory, Number, RowList};
use server_core::{Ballot, Outbox, Role};
use std::alloc::Global;
use std::mem;
use txn_program::{effect_of, partitions_of};

/// The bound before the first grant.
const NO_BOUND: Bound = Bound {
    n: 0,
    key: Key {
        table: 0,
        a: 0,
        b: 0,
        c: 0,
    },
};

/// One try of a transaction. It asks for one access after another, then its participants vote, and then it ends at each
/// partition that was told of its end.
#[derive(Drop)]
pub(crate) struct Attempting {
    pub turn: u8,
    pub stamp: u64,
    pub accesses: AccessList,
    /// The number of accesses granted so far, the rows of those that read, and the greatest bound.
    pub granted: usize,
    pub rows: RowList,
    pub bound: Bound,
    /// The votes so far, the oldest first.
    pub ballots: Vec<Ballot>,
    /// The partitions whose vote is to come, and later those whose Done or Undone is.
    pub left: Vec<u8>,
}

impl Attempting {
    pub fn new(alloc: Global, turn: u8, stamp: u64, accesses: AccessList) -> Attempting
        ensures { state_of result ≡ begun turn stamp accesses }
    {
        Attempting {
            turn,
            stamp,
            accesses,
            granted: 0,
            rows: RowList::new(alloc),
            bound: NO_BOUND,
            ballots: Vec::new(alloc),
            left: Vec::new(alloc),
        }
    }

    /// Takes in the reply to an access.
    fn take(&mut self, access: Access, grant: Grant<'_>) -> Result<(), NoMemory>
        requires { self.old.granted < 2 ^ 63 }
        ensures ok { OnOk result (state_of self.new ≡ taken access (reply_of grant.entry) (state_of self.old)) }
        ensures err { OnErr result (state_of self.new ≡ state_of self.old) }
    {
        if access.mode.is_reading() {
            self.rows.push(Keyed {
                key: access.key,
                row: grant.row.share()?,
            })?;
        }
        self.bound = greater_bound(self.bound, grant.bound, grant.key, self.granted == 0);
        self.granted += 1;
        Ok(())
    }

    /// Gives it back: the bound was this before.
    fn give_back(&mut self, alloc: Global, access: Access, best: Bound)
        requires { 1 ≤ self.old.granted }
        ensures { (t : State) (r : Reply) → state_of self.old ≡ taken access r t → best ≡ t.bound → state_of self.new ≡ t }
    {
        self.granted -= 1;
        self.bound = best;
        if access.mode.is_reading() {
            let mut rows = mem::replace(&mut self.rows, RowList::new(alloc)).into_vec();
            rows.pop();
            self.rows = RowList::of(rows);
        }
    }

    /// Has all participants vote.
    fn prepare(&mut self, role: &Role<'_>, who: Attempt, out: &mut Outbox) -> Result<(), NoMemory>
        requires { IsIn who.txn (all_ids role.now.work.now) }
        ensures ok { OnOk result (state_of self.new ≡ with_left (states.participants_of (setting_of role.now) (state_of self.old)) (state_of self.old)) }
        ensures said { OnOk result (out.new.mails ≡ out.old.mails ++ next_mails (setting_of role.now) role.now.part who (state_of self.old) None) }
        ensures err { OnErr result (state_of self.new ≡ state_of self.old) }
        ensures same_mails { OnErr result (out.new.mails ≡ out.old.mails) }
    {
        let participants = partitions_of(role.alloc, role.config.parts, self.accesses.as_slice())?;
        let program = role.program(who.txn);
        let effect = effect_of(role.alloc, &role.work.load, who.txn, program, &self.rows)?;
        say_prepares(role, who, self.bound, &effect, participants.as_slice(), out)?;
        self.left = participants.into_vec();
        Ok(())
    }

    /// Asks for its next access, or has all participants vote.
    fn go_on(&mut self, role: &Role<'_>, who: Attempt, out: &mut Outbox) -> Result<(), NoMemory>
        requires { IsIn who.txn (all_ids role.now.work.now) }
        ensures ok { OnOk result (state_of self.new ≡ going_on (setting_of role.now) (state_of self.old) (slice_get self.old.accesses self.old.granted)) }
        ensures said { OnOk result (out.new.mails ≡ out.old.mails ++ next_mails (setting_of role.now) role.now.part who (state_of self.old) (slice_get self.old.accesses self.old.granted)) }
        ensures err { OnErr result (state_of self.new ≡ state_of self.old) }
        ensures same_mails { OnErr result (out.new.mails ≡ out.old.mails) }
    {
        if self.granted >= self.accesses.len() {
            return self.prepare(role, who, out);
        }
        let access = *self.accesses.get(self.granted);
        out.say(ask_mail(role, who, self.stamp, access))
    }

    /// The access that it asked for is granted.
    pub fn hear_grant(
        &mut self,
        role: &Role<'_>,
        who: Attempt,
        grant: Grant<'_>,
        out: &mut Outbox,
    ) -> Result<(), NoMemory>
        requires { IsIn who.txn (all_ids role.now.work.now) }
        ensures ok { OnOk result (state_of self.new ≡ states.granted (setting_of role.now) (reply_of grant.entry) (state_of self.old)) }
        ensures said { OnOk result (out.new.mails ≡ out.old.mails ++ granted_mails (setting_of role.now) role.now.part who (reply_of grant.entry) (state_of self.old)) }
        ensures err { OnErr result (state_of self.new ≡ state_of self.old) }
        ensures same_mails { OnErr result (out.new.mails ≡ out.old.mails) }
    {
        if self.granted >= self.accesses.len() {
            return Ok(());
        }
        let access = *self.accesses.get(self.granted);
        let best = self.bound;
        self.take(access, grant)?;
        match self.go_on(role, who, out) {
            Ok(()) => Ok(()),
            Err(error) => {
                self.give_back(role.alloc, access, best);
                Err(error)
            }
        }
    }

    /// It is refused: it aborts where it has asked.
    pub fn hear_refusal(
        &mut self,
        role: &Role<'_>,
        who: Attempt,
        out: &mut Outbox,
    ) -> Result<(), NoMemory>
        requires { self.old.granted < length self.old.accesses }
        ensures ok { OnOk result (state_of self.new ≡ states.refused (setting_of role.now) (state_of self.old)) }
        ensures said { OnOk result (out.new.mails ≡ out.old.mails ++ refused_mails (setting_of role.now) role.now.part who (state_of self.old)) }
        ensures err { OnErr result (state_of self.new ≡ state_of self.old) }
        ensures same_mails { OnErr result (out.new.mails ≡ out.old.mails) }
    {
        let asked = &self.accesses.as_slice()[..self.granted + 1];
        let told = partitions_of(role.alloc, role.config.parts, asked)?;
        say_to_all(role.part, who, Ending::Abort, told.as_slice(), out)?;
        self.left = told.into_vec();
        Ok(())
    }

    /// Tells all participants what the votes decide.
    fn tell(&mut self, role: &Role<'_>, who: Attempt, out: &mut Outbox) -> Result<(), NoMemory>
        ensures ok { OnOk result (state_of self.new ≡ with_left (states.participants_of (setting_of role.now) (state_of self.old)) (state_of self.old)) }
        ensures said { OnOk result (out.new.mails ≡ out.old.mails ++ decision_mails (setting_of role.now) role.now.part who (state_of self.old)) }
        ensures kept { self.new.ballots ≡ self.old.ballots }
        ensures err { OnErr result (state_of self.new ≡ state_of self.old) }
        ensures same_mails { OnErr result (out.new.mails ≡ out.old.mails) }
    {
        let ending = match decide(&self.ballots) {
            Decision::Commit(n) => Ending::Commit(Number { n, id: who.txn }),
            Decision::Abort => Ending::Abort,
        };
        let participants = partitions_of(role.alloc, role.config.parts, self.accesses.as_slice())?;
        say_to_all(role.part, who, ending, participants.as_slice(), out)?;
        self.left = participants.into_vec();
        Ok(())
    }

    /// Whether no other partition is left.
    pub fn is_last(&self, part: u8) -> bool
        ensures { result ≡ list_all (λ q. q == part) self.now.left.items }
    {
        for other in &self.left {
            if *other != part {
                return false;
            }
        }
        true
    }

    /// A participant votes: the last vote decides.
    pub fn hear_vote(
        &mut self,
        role: &Role<'_>,
        who: Attempt,
        ballot: Ballot,
        out: &mut Outbox,
    ) -> Result<(), NoMemory>
        ensures ok { OnOk result (state_of self.new ≡ states.voted (setting_of role.now) ballot (state_of self.old)) }
        ensures said { OnOk result (out.new.mails ≡ out.old.mails ++ voted_mails (setting_of role.now) role.now.part who ballot (state_of self.old)) }
        ensures err { OnErr result (state_of self.new ≡ state_of self.old) }
        ensures same_mails { OnErr result (out.new.mails ≡ out.old.mails) }
    {
        self.ballots.push(ballot)?;
        if !self.is_last(ballot.part) {
            take_out(&mut self.left, ballot.part);
            return Ok(());
        }
        match self.tell(role, who, out) {
            Ok(()) => Ok(()),
            Err(error) => {
                self.ballots.pop();
                Err(error)
            }
        }
    }

    /// It has ended at a partition.
    pub fn close_at(&mut self, part: u8)
        ensures { state_of self.new ≡ with_left (without part self.old.left.items) (state_of self.old) }
    {
        take_out(&mut self.left, part);
    }
}
