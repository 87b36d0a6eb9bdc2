//! The history of a whole run, and of one that is stopped and resumed.
ghost use Rattle.std.specs.Prelude.{◌≡◌};
ghost use Rattle.server_core.specs.Configs.{IsConfig};
ghost use Rattle.txn_program.specs.Valid.{IsValid};

use deneva_base::{Config, NoMemory};
use server_core::{History, Schedule, Server};
use std::alloc::Global;
use txn_program::Workload;
use world::{Stopped, World};

/// The history of the run that a schedule picks.
pub fn history_of<'w, S: Server<'w>>(
    alloc: Global,
    config: Config,
    work: &'w Workload,
    schedule: &Schedule,
) -> Result<History, NoMemory>
    requires config { IsConfig config }
    requires valid { IsValid work.now }
    requires protocol { config.protocol ≡ S.protocol }
{
    let mut world: World<'w, S> = World::begin(alloc, config, work)?;
    world.run(schedule)?;
    let finished = world.finish()?;
    Ok(finished.history)
}

/// The history of a run by FIFO that is stopped after so many deliveries, or at its end, and resumed.
pub fn resumed_history<'w, S: Server<'w>>(
    alloc: Global,
    config: Config,
    work: &'w Workload,
    deliveries: usize,
) -> Result<History, NoMemory>
    requires config { IsConfig config }
    requires valid { IsValid work.now }
    requires protocol { config.protocol ≡ S.protocol }
{
    let mut world: World<'w, S> = World::begin(alloc, config, work)?;
    for _ in 0..deliveries {
        if world.in_flight() == 0 {
            break;
        }
        world.deliver(0)?;
    }
    let Stopped { nodes, history } = world.stop();
    let mut resumed: World<'w, S> = World::resume(alloc, config, work, nodes, history)?;
    resumed.run(&Schedule::Fifo)?;
    let finished = resumed.finish()?;
    Ok(finished.history)
}
