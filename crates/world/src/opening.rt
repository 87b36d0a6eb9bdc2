//! What is in flight at the start.
ghost use Rattle.std.specs.Prelude.{◌≡◌, IfOk};
ghost use Rattle.txn_program.specs.Valid.{IsValid};
ghost use Rattle.server_core.specs.Configs.{IsConfig};
ghost use Rattle.server_core.specs.Says.{opening_mails};

use crate::flight::Flight;
use deneva_base::{Config, NoMemory};
use server_core::{Mail, opening};
use std::alloc::Global;
use txn_program::Workload;

/// The mails in flight at the start, in their order.
pub fn first_flight(
    alloc: Global,
    config: Config,
    work: &Workload,
) -> Result<Flight<Mail>, NoMemory>
    requires config { IsConfig config }
    requires valid { IsValid work.now }
    ensures { IfOk result (λ flight. flight ≡ opening_mails config work.now) }
{
    let mut flight = Flight::new(alloc);
    for mail in opening(alloc, config, work)?.into_vec() {
        flight.push(mail)?;
    }
    Ok(flight)
}
