//! What came of a run of a voting protocol.
ghost use Rattle.std.specs.Prelude.{◌≡◌, ◌↔◌, IsTrue, List, reverse, IfOk};
ghost use Rattle.protocol_rules.specs.Protocols.{IsVoting};
ghost use Rattle.server_core.specs.Outcome.{outcome};
ghost use Rattle.server_core.specs.declared.messages.Entry as messages;
ghost use Rattle.run_outcomes.specs.Outcomes.{with_rows, IsOver};
ghost use Rattle.run_outcomes.specs.Stories.{Tells};

use crate::lists::{aborts_of, giveups_of, in_number_order, lines_of};
use crate::stories::{Story, stories_of};
use deneva_base::{NoMemory, RowList};
use server_core::{Entry, Outcome, Role, RunKind};

/// The outcome of a history, with these rows.
pub(crate) fn voting_outcome(
    role: Role<'_>,
    history: &[Entry],
    rows: RowList,
) -> Result<Outcome, NoMemory>
    requires { IsVoting role.config.protocol }
    ensures { IfOk result (λ o. o ≡ with_rows (outcome role.entry.config role.entry.work.now (reverse history.now)) rows) }
{
    let stories = stories_of(role, history)?;
    let decided = in_number_order(lines_of(role, &stories)?)?;
    let giveups = giveups_of(role, &stories)?;
    let aborts = aborts_of(role, &stories)?;
    Ok(Outcome {
        kind: RunKind::Under(role.config.protocol),
        parts: role.config.parts,
        decided,
        giveups,
        aborts,
        rows,
    })
}

impl Story<'_> {
    /// Whether the transaction is decided or given up.
    pub(crate) fn is_ended(&self, role: Role<'_>) -> Result<bool, NoMemory>
        requires voting { IsVoting role.config.protocol }
        ensures { IfOk result (λ ended. (H : List messages.Entry) → Tells role.entry H self.now → IsTrue ended ↔ IsOver (outcome role.entry.config role.entry.work.now H) self.now.id) }
    {
        let turns = role.config.attempts;
        if self.done_turn(turns).is_some() {
            return Ok(true);
        }
        let undone = self.is_undone(role, turns)?;
        Ok(undone)
    }
}
