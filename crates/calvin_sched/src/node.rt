//! A node of Calvin.
ghost use Rattle.std.specs.Prelude.{◌≡◌};
ghost use Rattle.deneva_base.specs.declared.config.Protocol.TheVariants.{Calvin};
ghost use Rattle.calvin_laws.proofs.NodeLaws.{mails_fit, runs_end, mails_land, rows_kept_apart};
ghost use Rattle.server_core.specs.Roles.{role_of};
ghost use Rattle.calvin_sched.specs.Standing.{CalvinStands};

use crate::arrivals::Arrivals;
use crate::batches::Batches;
use crate::locks::LockTable;
use crate::rows::store_of;
use calvin_seq::{Sequencer, epochs, numbers_of, participant_counts};
use deneva_base::{Config, NoMemory, Number, Protocol, RowList};
use row_store::Store;
use server_core::{Handles, Msg, Outbox, Role, Server};
use std::alloc::Global;
use txn_program::Workload;

/// The sequencer of its home transactions, and the scheduler of its partition: it takes the batches in the global order,
/// grants locks in that order, exchanges rows with the other participants, and applies what each transaction leaves here.
#[derive(Drop)]
pub struct CalvinNode<'w> {
    pub(crate) role: Role<'w>,
    pub(crate) sequencer: Sequencer<'w>,
    /// The number of each transaction, by its id.
    pub(crate) numbers: Vec<Number>,
    /// How many participants each transaction has, by its id.
    pub(crate) counts: Vec<u8>,
    pub(crate) batches: Batches,
    pub(crate) locks: LockTable,
    pub(crate) arrivals: Arrivals,
    pub(crate) store: Store,
}

impl<'w> Handles for CalvinNode<'w> {
    ghost role = { λ n. role_of n.role };

    ghost protocol = { Calvin };

    ghost stands = { λ n ms. CalvinStands n ms };

    fn handle(&mut self, _from: u8, msg: &Msg, out: &mut Outbox) -> Result<(), NoMemory> {
        match msg {
            Msg::Tick { epoch } => self.sequencer.tick(*epoch, out),
            Msg::Batch { epoch, seq, ids } => self.hear_batch(*epoch, *seq, ids, out),
            Msg::Rows { id, part, rows } => self.hear_rows(*id, *part, rows, out),
            _ => Ok(()),
        }
    }

    fn rows(&self) -> Result<RowList, NoMemory> {
        self.store.rows_in_order()
    }

    ghost fits = { λ c w H flight is config valid run. mails_fit c w H flight is config valid run };

    ghost ends = { λ c w H flight is config valid run. runs_end c w H flight is config valid run };

    ghost lands = { λ c w H flight x is config valid run i. mails_land c w H flight is config valid run x i };

    ghost keeps_apart = { λ c w H flight p key is config valid run other. rows_kept_apart c w H flight is config valid run p key other };
}

impl<'w> Server<'w> for CalvinNode<'w> {
    fn protocol() -> Protocol
        ensures { result ≡ Calvin }
    {
        Protocol::Calvin
    }

    fn begin(
        alloc: Global,
        config: Config,
        part: u8,
        work: &'w Workload,
    ) -> Result<Self, NoMemory> {
        let role = Role::new(alloc, config, part, work);
        let count = epochs(work, config.parts) as usize * usize::from(config.parts);
        Ok(CalvinNode {
            role,
            sequencer: Sequencer::begin(role)?,
            numbers: numbers_of(alloc, work, config.parts)?,
            counts: participant_counts(alloc, work, config.parts)?,
            batches: Batches::begin(alloc, count)?,
            locks: LockTable::new(alloc),
            arrivals: Arrivals::new(alloc),
            store: store_of(&role)?,
        })
    }
}
