//! The partition's side of a node.
ghost use Rattle.std.specs.Prelude.{◌≡◌, ℕ, List, OnOk, OnErr};
ghost use Rattle.server_core.specs.Roles.{Role};
ghost use Rattle.server_core.specs.declared.messages.Msg as messages;
ghost use Rattle.server_core.specs.declared.messages.Msg.TheVariants as msg;
ghost use Rattle.server_core.specs.Hearing.{IsFitting, SaysOn, StandsWith, StandsStill};

use deneva_base::{Attempt, Bound, Key, Mode, NoMemory, Number, RowList};
use server_core::Outbox;

/// What a node does on a participant's message: one call of its control, and the room for what is told comes before it.
///
/// It is a trait since the check follows no call from an `impl` of a trait to a generic function whose bound asks for
/// `Send`, as a control's does.
pub(crate) trait Participant: Sized + Drop {
    ghost role: { Self → Role };

    ghost stands: { Self → List messages.Msg → Type 0 };

    /// Asks the control for an access, and tells its home what came of it.
    fn hear_ask(
        &mut self,
        who: Attempt,
        stamp: u64,
        key: Key,
        mode: Mode,
        out: &mut Outbox,
    ) -> Result<(), NoMemory>
        requires fits { (from : ℕ) × IsFitting (Self.stands self.old) (Self.role self.old) from (msg.Ask who stamp key mode) }
        ensures role { Self.role self.new ≡ Self.role self.old }
        ensures says { OnOk result ((from : ℕ) → SaysOn (Self.stands self.old) (Self.role self.old) from (msg.Ask who stamp key mode) out.old.mails out.new.mails) }
        ensures stands { OnOk result ((from : ℕ) → StandsWith (Self.stands self.old) (Self.role self.old) from (msg.Ask who stamp key mode) (Self.stands self.new)) }
        ensures same_mails { OnErr result (out.new.mails ≡ out.old.mails) }
        ensures same { OnErr result (StandsStill (Self.stands self.old) (Self.stands self.new)) };

    /// Has the control vote on copies of the rows, and tells the attempt's home the vote.
    fn hear_prepare(
        &mut self,
        who: Attempt,
        bound: Bound,
        writes: &RowList,
        appends: &RowList,
        out: &mut Outbox,
    ) -> Result<(), NoMemory>
        requires fits { (from : ℕ) × IsFitting (Self.stands self.old) (Self.role self.old) from (msg.Prepare who bound writes.now appends.now) }
        ensures role { Self.role self.new ≡ Self.role self.old }
        ensures says { OnOk result ((from : ℕ) → SaysOn (Self.stands self.old) (Self.role self.old) from (msg.Prepare who bound writes.now appends.now) out.old.mails out.new.mails) }
        ensures stands { OnOk result ((from : ℕ) → StandsWith (Self.stands self.old) (Self.role self.old) from (msg.Prepare who bound writes.now appends.now) (Self.stands self.new)) }
        ensures same_mails { OnErr result (out.new.mails ≡ out.old.mails) }
        ensures same { OnErr result (StandsStill (Self.stands self.old) (Self.stands self.new)) };

    /// Commits an attempt, and tells its home, and then the homes of those that this wakes.
    fn hear_commit(
        &mut self,
        who: Attempt,
        number: Number,
        out: &mut Outbox,
    ) -> Result<(), NoMemory>
        requires fits { (from : ℕ) × IsFitting (Self.stands self.old) (Self.role self.old) from (msg.Commit who number) }
        ensures role { Self.role self.new ≡ Self.role self.old }
        ensures says { OnOk result ((from : ℕ) → SaysOn (Self.stands self.old) (Self.role self.old) from (msg.Commit who number) out.old.mails out.new.mails) }
        ensures stands { OnOk result ((from : ℕ) → StandsWith (Self.stands self.old) (Self.role self.old) from (msg.Commit who number) (Self.stands self.new)) }
        ensures same_mails { OnErr result (out.new.mails ≡ out.old.mails) }
        ensures same { OnErr result (StandsStill (Self.stands self.old) (Self.stands self.new)) };

    /// Aborts an attempt, and tells its home, and then the homes of those that this wakes.
    fn hear_abort(&mut self, who: Attempt, out: &mut Outbox) -> Result<(), NoMemory>
        requires fits { (from : ℕ) × IsFitting (Self.stands self.old) (Self.role self.old) from (msg.Abort who) }
        ensures role { Self.role self.new ≡ Self.role self.old }
        ensures says { OnOk result ((from : ℕ) → SaysOn (Self.stands self.old) (Self.role self.old) from (msg.Abort who) out.old.mails out.new.mails) }
        ensures stands { OnOk result ((from : ℕ) → StandsWith (Self.stands self.old) (Self.role self.old) from (msg.Abort who) (Self.stands self.new)) }
        ensures same_mails { OnErr result (out.new.mails ≡ out.old.mails) }
        ensures same { OnErr result (StandsStill (Self.stands self.old) (Self.stands self.new)) };
}
