//! Which node of which run.
ghost use Rattle.std.specs.Prelude.{◌≡◌, ◌<◌};
ghost use Rattle.txn_program.specs.Valid.{IsValid};
ghost use Rattle.server_core.specs.Configs.{IsConfig};

use deneva_base::Config;
use std::alloc::Global;
use txn_program::Workload;

/// A node, which is a partition counted from 0, and the configuration and the workload of its run. What it hands out takes
/// its memory from `alloc`.
#[derive(Clone, Copy)]
pub struct Role<'w> {
    pub alloc: Global,
    pub config: Config,
    pub part: u8,
    pub work: &'w Workload,
    ghost ranges: { IsConfig config },
    ghost valid: { IsValid work.now },
    ghost below: { part < config.parts },
}

impl<'w> Role<'w> {
    /// The node `part` of a run.
    pub fn new(alloc: Global, config: Config, part: u8, work: &'w Workload) -> Role<'w>
        requires config { IsConfig config }
        requires valid { IsValid work.now }
        requires part { part < config.parts }
        ensures config { result.config ≡ config }
        ensures part { result.part ≡ part }
        ensures work { result.work.now ≡ work.now }
    {
        Role {
            alloc,
            config,
            part,
            work,
        }
    }
}
