//! Whole runs.
ghost use Rattle.std.specs.Prelude.{◌≡◌, IfOk};
ghost use Rattle.server_core.specs.Configs.{IsConfig};
ghost use Rattle.txn_program.specs.Valid.{IsValid};
ghost use Rattle.replay.specs.Replayed.{Replays};

use calvin_sched::CalvinNode;
use chain_control::Chains;
use deneva_base::{Config, NoMemory, Protocol};
use lock_control::Locks;
use node_core::Node;
use range_control::Ranges;
use run_laws::runs_are_right;
use run_outcomes::outcome_of;
use server_core::{History, Outcome, Schedule, Server};
use stamp_control::Stamps;
use std::alloc::Global;
use txn_program::Workload;
use world::{World, run_all};

/// A run from its start until nothing is in flight: its entries in the order of their places, and what came of it.
#[derive(Debug, Drop)]
pub struct Ran {
    pub history: History,
    pub outcome: Outcome,
}

/// The run of these nodes that a schedule picks.
fn run_in<'w, S: Server<'w>>(
    alloc: Global,
    config: Config,
    work: &'w Workload,
    schedule: &Schedule,
) -> Result<Ran, NoMemory>
    requires config { IsConfig config }
    requires valid { IsValid work.now }
    requires protocol { config.protocol ≡ S.protocol }
    ensures { IfOk result (λ ran. Replays config work.now schedule.now ran) }
{
    runs_are_right();
    let world: World<'w, S> = run_all(alloc, config, work, schedule)?;
    let finished = world.finish()?;
    let history = finished.history;
    let outcome = outcome_of(alloc, config, work, history.as_slice(), finished.rows)?;
    Ok(Ran { history, outcome })
}

/// Runs a workload under the protocol of a configuration: the mails are delivered in the order that the schedule picks,
/// until none is in flight. The only error is out of memory.
pub fn replay(
    alloc: Global,
    config: Config,
    work: &Workload,
    schedule: &Schedule,
) -> Result<Ran, NoMemory>
    requires config { IsConfig config }
    requires valid { IsValid work.now }
    ensures { IfOk result (λ ran. Replays config work.now schedule.now ran) }
{
    match config.protocol {
        Protocol::NoWait => run_in::<Node<Locks<0>>>(alloc, config, work, schedule),
        Protocol::WaitDie => run_in::<Node<Locks<1>>>(alloc, config, work, schedule),
        Protocol::Timestamp => run_in::<Node<Stamps>>(alloc, config, work, schedule),
        Protocol::Mvcc => run_in::<Node<Chains<4>>>(alloc, config, work, schedule),
        Protocol::Maat => run_in::<Node<Ranges<4096>>>(alloc, config, work, schedule),
        Protocol::Calvin => run_in::<CalvinNode>(alloc, config, work, schedule),
    }
}
