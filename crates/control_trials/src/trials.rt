//! A trial of a control: what it says to calls drawn at random is what the plain body of its rule says.
use crate::draws::Draws;
use crate::log::Log;
use crate::plain::{Plain, Rule};
use crate::steps::{Said, Step, said_once};
use crate::stores::two_rows;
use control_core::Control;
use deneva_base::{Answer, Cause, Mode, NoMemory, RowList, Vote};
use std::alloc::Global;

/// How many calls are drawn in a trial.
const LENGTH: u32 = 400;

/// From how many seeds they are drawn.
const SEEDS: u64 = 12;

/// How often each of these was met in calls that a control and a plain body agree on.
#[derive(Clone, Copy, Debug, PartialEq, Eq)]
pub(crate) struct Met {
    pub(crate) waits: u32,
    pub(crate) updates_that_wait: u32,
    pub(crate) commits_that_wake_more: u32,
    pub(crate) aborts_that_wake_more: u32,
    pub(crate) held: u32,
    pub(crate) younger: u32,
    pub(crate) written: u32,
    pub(crate) read_later: u32,
    pub(crate) trimmed: u32,
    pub(crate) empty_ranges: u32,
    pub(crate) double_writes: u32,
    pub(crate) appends: u32,
    pub(crate) commits: u32,
}

impl Met {
    pub(crate) fn nothing() -> Met {
        Met {
            waits: 0,
            updates_that_wait: 0,
            commits_that_wake_more: 0,
            aborts_that_wake_more: 0,
            held: 0,
            younger: 0,
            written: 0,
            read_later: 0,
            trimmed: 0,
            empty_ranges: 0,
            double_writes: 0,
            appends: 0,
            commits: 0,
        }
    }

    fn count(&mut self, step: Step, said: &Said) {
        match (step, said) {
            (Step::Ask(_, _, _, mode), Said::Answer(Answer::Waits)) => {
                count(&mut self.waits, true);
                count(&mut self.updates_that_wait, matches!(mode, Mode::Update));
            }
            (_, Said::Answer(Answer::Refused(cause))) => self.count_cause(cause),
            (Step::Prepare(_, _, effect), Said::Vote(Vote::Yes { .. })) => {
                let writes = effect.writes;
                count(
                    &mut self.double_writes,
                    writes.first.is_some() && writes.second.is_some(),
                );
                let appends = effect.appends;
                count(
                    &mut self.appends,
                    appends.first.is_some() || appends.second.is_some(),
                );
            }
            (_, Said::Vote(Vote::No(cause))) => self.count_cause(cause),
            (Step::Commit(_, _), Said::Ended(woken, _)) => {
                count(&mut self.commits, true);
                count(&mut self.commits_that_wake_more, woken.len() > 1);
            }
            (_, Said::Ended(woken, _)) => count(&mut self.aborts_that_wake_more, woken.len() > 1),
            _ => {}
        }
    }

    fn count_cause(&mut self, cause: &Cause) {
        match cause {
            Cause::Held { .. } => count(&mut self.held, true),
            Cause::Younger { .. } => count(&mut self.younger, true),
            Cause::Written { .. } => count(&mut self.written, true),
            Cause::ReadLater { .. } => count(&mut self.read_later, true),
            Cause::Trimmed { .. } => count(&mut self.trimmed, true),
            Cause::EmptyRange { .. } => count(&mut self.empty_ranges, true),
            Cause::Apart { .. } => {}
        }
    }
}

fn count(number: &mut u32, holds: bool) {
    *number = number.saturating_add(u32::from(holds));
}

/// Whether a control and the plain body of its rule agree on calls drawn from a seed and on the rows after them. What was met
/// on the way is counted.
fn agrees<C: Control>(
    alloc: Global,
    rule: Rule,
    seed: u64,
    met: &mut Met,
) -> Result<bool, NoMemory> {
    let mut control = C::begin(two_rows(alloc)?)?;
    let mut log = Log::new(alloc);
    let mut plain = Plain::new(alloc, rule);
    let mut draws = Draws::new(seed, rule);
    for _ in 0..LENGTH {
        let step = draws.draw();
        let said = said_once(alloc, &mut control, &mut log, step)?;
        if said == Said::Nothing {
            continue;
        }
        if !plain.agrees(alloc, step, &said)? {
            return Ok(false);
        }
        met.count(step, &said);
        draws.learn(step, &said);
    }
    Ok(control.rows()? == plain.rows(alloc)?)
}

/// What was met in calls drawn from several seeds, or the seed on which a control and the plain body of its rule do not agree.
pub(crate) fn trial<C: Control>(alloc: Global, rule: Rule) -> Result<Result<Met, u64>, NoMemory> {
    let mut met = Met::nothing();
    for seed in 0..SEEDS {
        if !agrees::<C>(alloc, rule, seed, &mut met)? {
            return Ok(Err(seed));
        }
    }
    Ok(Ok(met))
}

/// What a control says to these calls, one after another, and the rows after them.
pub(crate) fn said_to<C: Control>(
    alloc: Global,
    steps: &[Step],
) -> Result<(Vec<Said>, RowList), NoMemory> {
    let mut control = C::begin(two_rows(alloc)?)?;
    let mut log = Log::new(alloc);
    let mut all = Vec::new(alloc);
    for step in steps {
        all.push(said_once(alloc, &mut control, &mut log, *step)?)?;
    }
    Ok((all, control.rows()?))
}
