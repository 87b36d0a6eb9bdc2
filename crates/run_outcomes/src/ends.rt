//! How the attempts of a transaction ended.
ghost use Rattle.std.specs.Prelude.{◌≡◌, List, IfOk, option_map, option_to_list};
ghost use Rattle.server_core.specs.Coordinator as coordinator;
ghost use Rattle.server_core.specs.AttemptEnds as ends;
ghost use Rattle.server_core.specs.declared.messages.Entry as messages;
ghost use Rattle.run_outcomes.specs.ByTransaction.{giveups_for};
ghost use Rattle.server_core.specs.Roles.{setting_of};
ghost use Rattle.run_outcomes.specs.Stories.{Tells};
ghost use Rattle.server_core.specs.declared.role.Role as roles;

use crate::received::{all_done, all_undone, grants_for, has_started, is_refused};
use crate::stories::Story;
use deneva_base::{Attempt, ByteList, NoMemory};
use server_core::{Giveup, Role};
use txn_program::partitions_of;

impl Story<'_> {
    pub(crate) fn attempt(&self, turn: u8) -> Attempt
        ensures { result ≡ ends.attempt self.now.id turn }
    {
        Attempt { txn: self.id, turn }
    }

    /// Whether the attempt of this turn has committed at every participant.
    fn is_done(&self, turn: u8) -> bool
        ensures { (r : roles.Role) (H : List messages.Entry) → Tells r H self.now → result ≡ ends.all_done (setting_of r) H (ends.attempt self.now.id turn) }
    {
        let who = self.attempt(turn);
        has_started(who, &self.messages)
            && all_done(who, self.participants.as_slice(), &self.messages)
    }

    /// The turn up to `turns` whose attempt is decided.
    pub(crate) fn done_turn(&self, turns: u8) -> Option<u8>
        ensures { (r : roles.Role) (H : List messages.Entry) → Tells r H self.now → option_map (ends.attempt self.now.id) result ≡ ends.done_turn (setting_of r) H self.now.id turns }
    {
        if turns == 0 {
            None
        } else if self.is_done(turns) {
            Some(turns)
        } else {
            self.done_turn(turns - 1)
        }
    }

    /// The partitions that the attempt of this turn has asked.
    fn asked_partitions(&self, role: Role<'_>, turn: u8) -> Result<ByteList, NoMemory>
        ensures { IfOk result (λ list. (H : List messages.Entry) → Tells role.entry H self.now → let who = ends.attempt self.now.id turn in list ≡ coordinator.asked_partitions (setting_of role.entry) (ends.at_home (setting_of role.entry) H who) who) }
    {
        let granted = grants_for(role.alloc, self.attempt(turn), &self.messages)?.len();
        let accesses = self.accesses.as_slice();
        let asked = &accesses[..accesses.len().min(granted + 1)];
        partitions_of(role.alloc, role.config.parts, asked)
    }

    /// The partitions to which the end of the attempt of this turn was said.
    fn told_partitions(&self, role: Role<'_>, turn: u8) -> Result<ByteList, NoMemory>
        ensures { IfOk result (λ list. (H : List messages.Entry) → Tells role.entry H self.now → let who = ends.attempt self.now.id turn in list ≡ coordinator.told (setting_of role.entry) (ends.at_home (setting_of role.entry) H who) who) }
    {
        if is_refused(self.attempt(turn), &self.messages) {
            self.asked_partitions(role, turn)
        } else {
            self.participants.copy(role.alloc)
        }
    }

    /// Whether the attempt of this turn has aborted wherever its end was said.
    pub(crate) fn is_undone(&self, role: Role<'_>, turn: u8) -> Result<bool, NoMemory>
        ensures { IfOk result (λ undone. (H : List messages.Entry) → Tells role.entry H self.now → undone ≡ ends.all_undone (setting_of role.entry) H (ends.attempt self.now.id turn)) }
    {
        let who = self.attempt(turn);
        if !has_started(who, &self.messages) {
            return Ok(false);
        }
        let told = self.told_partitions(role, turn)?;
        Ok(all_undone(who, told.as_slice(), &self.messages))
    }

    /// The give-up of the transaction, whose last attempt has aborted.
    pub(crate) fn giveup(&self, role: Role<'_>) -> Result<Option<Giveup>, NoMemory>
        ensures { IfOk result (λ giveup. (H : List messages.Entry) → Tells role.entry H self.now → option_to_list giveup ≡ giveups_for (setting_of role.entry) H self.now.id) }
    {
        let turns = role.config.attempts;
        let undone = self.is_undone(role, turns)?;
        Ok(undone.then_some(Giveup { id: self.id, turns }))
    }
}
