//! Lists of messages.
ghost use Rattle.std.specs.Prelude.{List};
ghost use Rattle.server_core.specs.declared.messages.Msg as messages;
ghost use Rattle.node_trials.specs.Trials.{FitInTurn};

use deneva_base::NoMemory;
use server_core::{Handles, Msg, Outbox};

/// A message with its sender.
#[derive(Drop)]
pub(crate) struct Step {
    pub from: u8,
    pub msg: Msg,
}

/// Hands each message to the node.
pub(crate) fn tell<S: Handles>(
    node: &mut S,
    steps: &[Step],
    out: &mut Outbox,
) -> Result<(), NoMemory>
    requires fits { (ms : List messages.Msg) × S.stands node.old ms × FitInTurn (S.role node.old) ms steps.now }
{
    for step in steps {
        node.handle(step.from, &step.msg, out)?;
    }
    Ok(())
}
