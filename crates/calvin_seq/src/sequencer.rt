//! What a sequencer has.
ghost use Rattle.std.specs.Prelude.{◌≡◌};
ghost use Rattle.server_core.specs.GlobalOrder as global;
ghost use Rattle.server_core.specs.Setting as settings;

use deneva_base::TxnId;
use server_core::Role;

/// Puts the home transactions of its node into batches, in file order, one batch for each epoch.
#[derive(Drop)]
pub struct Sequencer<'w> {
    pub(crate) role: Role<'w>,
    pub(crate) homes: Vec<TxnId>,
    pub(crate) epochs: u32,
    ghost homes_are: { homes.items ≡ settings.homes (settings.setting role.config role.work.now) role.part },
    ghost epochs_are: { epochs ≡ global.epochs (settings.setting role.config role.work.now) },
}
