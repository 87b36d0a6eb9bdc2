//! The lines of decided transactions.
ghost use Rattle.std.specs.Prelude.{◌≡◌, ◌++◌, List, map, IfOk, OnOk, option_to_list};
ghost use Rattle.server_core.specs.Coordinator as coordinator;
ghost use Rattle.server_core.specs.AttemptEnds.{attempt};
ghost use Rattle.server_core.specs.Lines as listed;
ghost use Rattle.server_core.specs.declared.messages.Entry as messages;
ghost use Rattle.run_outcomes.specs.ByTransaction.{lines_for};
ghost use Rattle.run_outcomes.specs.GrantedRows.{reply_of};
ghost use Rattle.server_core.specs.Roles.{setting_of};
ghost use Rattle.run_outcomes.specs.Stories.{Tells};

use crate::received::grants_for;
use crate::stories::Story;
use deneva_base::{Access, Attempt, Copied, Keyed, NoMemory, Number, Row, RowList};
use server_core::{Decided, Entry, Msg, Role};
use txn_program::{Effect, effect_of};

/// The number of the attempt's Commit.
fn committed_n(who: Attempt, entries: &[&Entry]) -> u64
    ensures { result ≡ listed.committed_n who (map (λ e. e.now) entries.now) }
{
    let [entry, before @ ..] = entries else {
        return 0;
    };
    match &entry.msg {
        Msg::Commit { who: by, number } if *by == who => number.n,
        _ => committed_n(who, before),
    }
}

/// Puts what the accesses that read were granted at the end.
fn push_reads(reads: &mut RowList, accesses: &[Access], rows: &[&Row]) -> Result<(), NoMemory>
    ensures { OnOk result (reads.new ≡ reads.old ++ coordinator.reads_of accesses.now (map reply_of (map (λ r. r.now) rows.now))) }
{
    let [access, more @ ..] = accesses else {
        return Ok(());
    };
    let [row, others @ ..] = rows else {
        return Ok(());
    };
    if access.mode.is_reading() {
        reads.push(Keyed {
            key: access.key,
            row: row.share()?,
        })?;
    }
    push_reads(reads, more, others)
}

impl Story<'_> {
    /// The line of the transaction, decided with this number on what it read.
    pub(crate) fn decided_line(
        &self,
        role: Role<'_>,
        n: u64,
        reads: RowList,
    ) -> Result<Decided, NoMemory>
        ensures { IfOk result (λ line. (H : List messages.Entry) → Tells role.entry H self.now → line ≡ listed.decided_as (setting_of role.entry) self.now.id n reads) }
    {
        let Effect {
            verdict,
            answer,
            ..
        } = effect_of(role.alloc, &role.work.load, self.id, self.program, &reads)?;
        let id = self.id;
        Ok(Decided {
            number: Number { n, id },
            verdict,
            answer,
            participants: self.participants.copy(role.alloc)?,
            reads,
        })
    }

    /// The line of the transaction, of which the attempt of this turn is decided.
    fn line_of(&self, role: Role<'_>, turn: u8) -> Result<Decided, NoMemory>
        ensures { IfOk result (λ line. (H : List messages.Entry) → Tells role.entry H self.now → line ≡ listed.line_of (setting_of role.entry) H (attempt self.now.id turn)) }
    {
        let who = self.attempt(turn);
        let rows = grants_for(role.alloc, who, &self.messages)?;
        let mut reads = RowList::new(role.alloc);
        push_reads(&mut reads, self.accesses.as_slice(), &rows)?;
        let n = committed_n(who, &self.entries);
        let line = self.decided_line(role, n, reads)?;
        Ok(line)
    }

    /// The line of the transaction, if it is decided.
    pub(crate) fn line(&self, role: Role<'_>) -> Result<Option<Decided>, NoMemory>
        ensures { IfOk result (λ line. (H : List messages.Entry) → Tells role.entry H self.now → option_to_list line ≡ lines_for (setting_of role.entry) H self.now.id) }
    {
        match self.done_turn(role.config.attempts) {
            Some(turn) => Ok(Some(self.line_of(role, turn)?)),
            None => Ok(None),
        }
    }
}
