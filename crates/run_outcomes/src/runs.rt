//! What came of a run.
ghost use Rattle.std.specs.Prelude.{◌≡◌, ◌↔◌, IsTrue, List, None, reverse, IfOk, IfSome, IfNone};
ghost use Rattle.deneva_base.specs.Lists.{IsIn};
ghost use Rattle.deneva_base.specs.declared.numbers.TxnId as numbers;
ghost use Rattle.txn_program.specs.Serial.{all_ids};
ghost use Rattle.txn_program.specs.Valid.{IsValid};
ghost use Rattle.server_core.specs.Configs.{IsConfig};
ghost use Rattle.server_core.specs.Outcome.{outcome};
ghost use Rattle.server_core.specs.Says.{IsQuiet};
ghost use Rattle.server_core.specs.declared.messages.Entry as messages;
ghost use Rattle.run_outcomes.specs.Outcomes.{with_rows, IsOver, IsLeastOpen};
ghost use Rattle.run_outcomes.specs.Stories.{Tells};

use crate::ordered::ordered_outcome;
use crate::stories::{Story, stories_of};
use crate::voting::voting_outcome;
use deneva_base::{Config, NoMemory, Protocol, RowList, TxnId};
use server_core::{Entry, Outcome, Role};
use std::alloc::Global;
use txn_program::Workload;

/// What came of a run, all but the rows taken from its entries, which stand the oldest first: the decided transactions in
/// the order of their numbers, those given up, and the aborted attempts.
pub fn outcome_of(
    alloc: Global,
    config: Config,
    work: &Workload,
    history: &[Entry],
    rows: RowList,
) -> Result<Outcome, NoMemory>
    requires config { IsConfig config }
    requires valid { IsValid work.now }
    ensures { IfOk result (λ o. o ≡ with_rows (outcome config work.now (reverse history.now)) rows) }
{
    // What came of a run is no node's own: the role of the first serves.
    let role = Role {
        alloc,
        config,
        part: 0,
        work,
    };
    match config.protocol {
        Protocol::Calvin => ordered_outcome(role, history, rows),
        _ => voting_outcome(role, history, rows),
    }
}

impl Story<'_> {
    /// Whether the transaction is decided or given up.
    fn is_over(&self, role: Role<'_>) -> Result<bool, NoMemory>
        ensures { IfOk result (λ over. (H : List messages.Entry) → Tells role.entry H self.now → IsTrue over ↔ IsOver (outcome role.entry.config role.entry.work.now H) self.now.id) }
    {
        match role.config.protocol {
            Protocol::Calvin => Ok(self.is_finished()),
            _ => self.is_ended(role),
        }
    }
}

fn least_open(role: Role<'_>, history: &[Entry]) -> Result<Option<TxnId>, NoMemory>
    ensures some { IfOk result (λ r. IfSome r (IsLeastOpen role.entry.work.now (outcome role.entry.config role.entry.work.now (reverse history.now)))) }
    ensures none { IfOk result (λ r. IfNone r ((x : numbers.TxnId) → IsIn x (all_ids role.entry.work.now) → IsOver (outcome role.entry.config role.entry.work.now (reverse history.now)) x)) }
    ensures quiet { IfOk result (λ r. IsQuiet role.entry.config role.entry.work.now (reverse history.now) → r ≡ None) }
{
    let stories = stories_of(role, history)?;
    for story in &stories {
        if !story.is_over(role)? {
            return Ok(Some(story.id));
        }
    }
    Ok(None)
}

/// The least transaction that is neither decided nor given up. Of a run with nothing in flight there is none.
pub fn undecided(
    alloc: Global,
    config: Config,
    work: &Workload,
    history: &[Entry],
) -> Result<Option<TxnId>, NoMemory>
    requires config { IsConfig config }
    requires valid { IsValid work.now }
    ensures some { IfOk result (λ r. IfSome r (IsLeastOpen work.now (outcome config work.now (reverse history.now)))) }
    ensures none { IfOk result (λ r. IfNone r ((x : numbers.TxnId) → IsIn x (all_ids work.now) → IsOver (outcome config work.now (reverse history.now)) x)) }
    ensures quiet { IfOk result (λ r. IsQuiet config work.now (reverse history.now) → r ≡ None) }
{
    least_open(
        Role {
            alloc,
            config,
            part: 0,
            work,
        },
        history,
    )
}
