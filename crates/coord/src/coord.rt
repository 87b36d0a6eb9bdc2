//! The coordinator of a node's home transactions.
ghost use Rattle.std.specs.Prelude.{◌≡◌, ◌++◌, [], ◌<◌, ◌≤◌, ◌^◌, ℕ, List, not, length, slice_get, IfOk, OnOk, OnErr, Some, None, true, ◌+◌, nat_lt};
ghost use Rattle.deneva_base.specs.Lists.{IsIn};
ghost use Rattle.txn_program.specs.Serial.{all_ids};
ghost use Rattle.txn_program.specs.Valid.{IsValid};
ghost use Rattle.server_core.specs.Configs.{IsConfig};
ghost use Rattle.protocol_rules.specs.Protocols.{IsVoting};
ghost use Rattle.server_core.specs.Coordinator.{coordinator, mail_start};
ghost use Rattle.server_core.specs.Roles.{FitsRole, setting_of};
ghost use Rattle.server_core.specs.Setting.{setting};
ghost use Rattle.server_core.specs.Small.{SmallCause};
ghost use Rattle.server_core.specs.Stamps as stamps;
ghost use Rattle.server_core.specs.declared.messages.Msg as messages;
ghost use Rattle.coord.specs.Moves.{Moved, Same, draws, stamp_for, started_by, counted_by};
ghost use Rattle.coord.specs.Open.{WithState};
ghost use Rattle.coord.specs.Standing.{role_of, Coordinates};
ghost use Rattle.coord.specs.States as states;
ghost use Rattle.coord.specs.States.{if_none_left, undone_mails, refused_mails, risen, without};
ghost use Rattle.server_core.specs.Hearing.{IsFitting, StandsWith, StandsStill};

use crate::attempts::Attempting;
use crate::counters::{counter_after, stamp_of};
use crate::open::OpenTxns;
use crate::replies::Grant;
use crate::saying::{ask_mail, say_start};
use deneva_base::{Attempt, Cause, Config, NoMemory, TxnId, Vote};
use server_core::{Ballot, Msg, Outbox, Role};
use std::alloc::Global;
use txn_program::Workload;

/// Two-phase commit at the home of transactions. Of the messages that it has handled it keeps what the next ones ask for.
#[derive(Drop)]
pub struct Coord<'w> {
    role: Role<'w>,
    /// Whether a transaction keeps its first stamp.
    fixed: bool,
    /// The stamps drawn so far, or as many as a refusal asks for.
    counter: u64,
    /// The home transactions, and the place of the next one that has not begun.
    homes: Vec<TxnId>,
    next: usize,
    open: OpenTxns,
}

impl<'w> Coord<'w> {
    /// A coordinator that has handled nothing. The first transactions begin by Starts that come from outside.
    pub fn begin(
        alloc: Global,
        config: Config,
        part: u8,
        fixed: bool,
        work: &'w Workload,
    ) -> Result<Coord<'w>, NoMemory>
        requires config { IsConfig config }
        requires valid { IsValid work.now }
        requires part { part < config.parts }
        requires voting { IsVoting config.protocol }
        requires fixed { (setting config work.now).fixed ≡ fixed }
        ensures role { IfOk result (λ c. role_of c ≡ record { config = config; work = work.now; part = part }) }
        ensures stands { IfOk result (λ c. Coordinates c []) }
    {
        let role = Role::new(alloc, config, part, work);
        let homes = role.homes()?;
        Ok(Coord {
            role,
            fixed,
            counter: 0,
            homes,
            next: config.limit as usize,
            open: OpenTxns::new(alloc),
        })
    }

    /// Whether an attempt takes a stamp of its own.
    fn draws(&self, who: Attempt) -> bool
        ensures { result ≡ draws self.now who }
    {
        who.turn == 1 || !self.fixed
    }

    fn stamp(&self, who: Attempt) -> u64
        requires { self.now.counter ≤ 2 ^ 49 }
        ensures { result ≡ stamp_for self.now who }
    {
        if self.draws(who) {
            stamp_of(self.counter, self.role.config.parts, self.role.part)
        } else {
            self.open.stamp(who.txn)
        }
    }

    /// Begins an attempt, with a stamp of its own or that of its first turn.
    fn start(&mut self, who: Attempt, out: &mut Outbox) -> Result<(), NoMemory>
        requires id { IsIn who.txn (all_ids self.old.role.work.now) }
        requires counter { self.old.counter ≤ 2 ^ 49 }
        ensures ok { OnOk result (Moved self.old who.txn (Some (started_by self.old who)) (counted_by self.old who) self.old.next self.new) }
        ensures said { OnOk result (out.new.mails ≡ out.old.mails ++ states.first_ask (setting_of self.old.role) self.old.role.part who (stamp_for self.old who)) }
        ensures err { OnErr result (Same self.old self.new) }
        ensures same_mails { OnErr result (out.new.mails ≡ out.old.mails) }
        ensures role { self.new.role ≡ self.old.role }
    {
        let role = self.role;
        let stamp = self.stamp(who);
        let accesses = role.accesses(who.txn)?;
        let first = *accesses.get(0);
        out.reserve(1)?;
        let counter = self.counter + u64::from(self.draws(who));
        self.open.insert(
            who.txn,
            Attempting::new(role.alloc, who.turn, stamp, accesses),
        )?;
        self.counter = counter;
        out.append(ask_mail(&role, who, stamp, first));
        Ok(())
    }

    /// An access is refused: later stamps are above the number that the cause names.
    fn hear_refusal(
        &mut self,
        who: Attempt,
        cause: &Cause,
        out: &mut Outbox,
    ) -> Result<(), NoMemory>
        requires small { SmallCause cause.now }
        requires more { WithState self.old.open who.txn (λ t. t.granted < length t.accesses) }
        ensures ok { OnOk result (WithState self.old.open who.txn (λ t. Moved self.old who.txn (Some (states.refused (setting_of self.old.role) t)) (stamps.raised self.old.role.config.parts self.old.counter cause.now) self.old.next self.new)) }
        ensures said { OnOk result (WithState self.old.open who.txn (λ t. out.new.mails ≡ out.old.mails ++ refused_mails (setting_of self.old.role) self.old.role.part who t)) }
        ensures err { OnErr result (Same self.old self.new) }
        ensures same_mails { OnErr result (out.new.mails ≡ out.old.mails) }
        ensures role { self.new.role ≡ self.old.role }
    {
        self.open.hear_refusal(&self.role, who, out)?;
        self.counter = counter_after(self.role.config.parts, self.counter, cause);
        Ok(())
    }

    /// Has the next transaction of this node begin, if one is left.
    fn say_next(&self, out: &mut Outbox) -> Result<(), NoMemory>
        ensures ok { OnOk result (out.new.mails ≡ out.old.mails ++ mail_start self.now.role.part (slice_get self.now.homes.items self.now.next)) }
        ensures err { OnErr result (out.new.mails ≡ out.old.mails) }
    {
        if self.next >= self.homes.len() {
            return Ok(());
        }
        let txn = self.homes[self.next];
        say_start(self.role.part, Attempt { txn, turn: 1 }, out)
    }

    /// A transaction is over: the next one of this node begins, if one is left.
    fn end(&mut self, id: TxnId, out: &mut Outbox) -> Result<(), NoMemory>
        requires next { self.old.next < 2 ^ 63 }
        ensures ok { OnOk result (Moved self.old id None self.old.counter (self.old.next + 1) self.new) }
        ensures said { OnOk result (out.new.mails ≡ out.old.mails ++ mail_start self.old.role.part (slice_get self.old.homes.items self.old.next)) }
        ensures err { OnErr result (Same self.old self.new) }
        ensures same_mails { OnErr result (out.new.mails ≡ out.old.mails) }
        ensures role { self.new.role ≡ self.old.role }
    {
        self.say_next(out)?;
        self.next += 1;
        self.open.remove(id);
        Ok(())
    }

    /// An attempt has committed at a partition.
    fn hear_done(&mut self, who: Attempt, part: u8, out: &mut Outbox) -> Result<(), NoMemory>
        requires next { self.old.next < 2 ^ 63 }
        ensures ok { OnOk result (WithState self.old.open who.txn (λ t. Moved self.old who.txn (states.done part t) self.old.counter (risen true self.old.next (without part t.left)) self.new)) }
        ensures said { OnOk result (WithState self.old.open who.txn (λ t. out.new.mails ≡ out.old.mails ++ if_none_left (mail_start self.old.role.part (slice_get self.old.homes.items self.old.next)) (without part t.left))) }
        ensures err { OnErr result (Same self.old self.new) }
        ensures same_mails { OnErr result (out.new.mails ≡ out.old.mails) }
        ensures role { self.new.role ≡ self.old.role }
    {
        if self.open.is_last(who.txn, part) {
            return self.end(who.txn, out);
        }
        self.open.close_at(who.txn, part);
        Ok(())
    }

    /// An attempt has aborted at a partition.
    fn hear_undone(&mut self, who: Attempt, part: u8, out: &mut Outbox) -> Result<(), NoMemory>
        requires next { self.old.next < 2 ^ 63 }
        ensures ok { OnOk result (WithState self.old.open who.txn (λ t. Moved self.old who.txn (states.undone (setting_of self.old.role) who part t) self.old.counter (risen (not (nat_lt who.turn self.old.role.config.attempts)) self.old.next (without part t.left)) self.new)) }
        ensures said { OnOk result (WithState self.old.open who.txn (λ t. out.new.mails ≡ out.old.mails ++ if_none_left (undone_mails (setting_of self.old.role) self.old.role.part who (mail_start self.old.role.part (slice_get self.old.homes.items self.old.next))) (without part t.left))) }
        ensures err { OnErr result (Same self.old self.new) }
        ensures same_mails { OnErr result (out.new.mails ≡ out.old.mails) }
        ensures role { self.new.role ≡ self.old.role }
    {
        if !self.open.is_last(who.txn, part) {
            self.open.close_at(who.txn, part);
            return Ok(());
        }
        if who.turn >= self.role.config.attempts {
            return self.end(who.txn, out);
        }
        let turn = who.turn + 1;
        say_start(self.role.part, Attempt { txn: who.txn, turn }, out)?;
        self.open.close_at(who.txn, part);
        Ok(())
    }

    /// Handles a message: what the coordinator says goes to the end of `out`. It has nothing to say to those of participants.
    /// Want of memory leaves the coordinator and the mails as they were.
    pub fn step(&mut self, msg: &Msg, out: &mut Outbox) -> Result<(), NoMemory>
        requires fits { (from : ℕ) × IsFitting (Coordinates self.old) (role_of self.old) from msg.now }
        ensures role { role_of self.new ≡ role_of self.old }
        ensures says { OnOk result ((from : ℕ) (ms : List messages.Msg) → Coordinates self.old ms → FitsRole (role_of self.old) from msg.now ms → out.new.mails ≡ out.old.mails ++ coordinator (setting (role_of self.old).config (role_of self.old).work) (role_of self.old).part msg.now ms) }
        ensures stands { OnOk result ((from : ℕ) → StandsWith (Coordinates self.old) (role_of self.old) from msg.now (Coordinates self.new)) }
        ensures same_mails { OnErr result (out.new.mails ≡ out.old.mails) }
        ensures same { OnErr result (StandsStill (Coordinates self.old) (Coordinates self.new)) }
    {
        match msg {
            Msg::Start { who } => self.start(*who, out),
            Msg::Granted {
                who,
                key,
                row,
                bound,
                ..
            } => {
                let grant = Grant {
                    key: *key,
                    row,
                    bound: *bound,
                };
                self.open.hear_grant(&self.role, *who, grant, out)
            }
            Msg::Refused { who, cause, .. } => self.hear_refusal(*who, cause, out),
            Msg::Yes { who, part, lo, hi } => {
                let vote = Vote::Yes { lo: *lo, hi: *hi };
                self.open
                    .hear_vote(&self.role, *who, Ballot { part: *part, vote }, out)
            }
            Msg::No { who, part, cause } => {
                let vote = Vote::No(*cause);
                self.open
                    .hear_vote(&self.role, *who, Ballot { part: *part, vote }, out)
            }
            Msg::Done { who, part } => self.hear_done(*who, *part, out),
            Msg::Undone { who, part } => self.hear_undone(*who, *part, out),
            _ => Ok(()),
        }
    }
}
