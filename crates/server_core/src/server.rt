//! Nodes.
ghost use Rattle.std.specs.Prelude.{◌≡◌, ◌≢◌, [], ◌≤◌, ◌<◌, true, ℕ, List, length, None, IfOk, OnOk, OnErr};
ghost use Rattle.deneva_base.specs.Lists.{IsIn};
ghost use Rattle.deneva_base.specs.Partitions.{partition_of};
ghost use Rattle.deneva_base.specs.Rising.{keys_rise};
ghost use Rattle.deneva_base.specs.Rows.{row_of};
ghost use Rattle.deneva_base.specs.declared.config.Config.{Config};
ghost use Rattle.deneva_base.specs.declared.config.Protocol as protocols;
ghost use Rattle.deneva_base.specs.declared.keys.Key.{Key};
ghost use Rattle.txn_program.specs.Valid.{IsValid};
ghost use Rattle.txn_program.specs.declared.programs.Workload as programs;
ghost use Rattle.server_core.specs.Configs.{IsConfig};
ghost use Rattle.server_core.specs.Fits.{AllFitting};
ghost use Rattle.server_core.specs.NodeRows.{rows_of_node};
ghost use Rattle.server_core.specs.Picks.{most_entries};
ghost use Rattle.server_core.specs.Roles.{Role, rows_of_role};
ghost use Rattle.server_core.specs.Runs.{heard};
ghost use Rattle.server_core.specs.Says.{IsRun};
ghost use Rattle.server_core.specs.declared.messages.Entry.{Entry};
ghost use Rattle.server_core.specs.declared.messages.Mail.{Mail};
ghost use Rattle.server_core.specs.declared.messages.Msg as messages;
ghost use Rattle.server_core.specs.Hearing.{IsFitting, SaysOn, StandsWith, StandsStill};

use crate::messages::{Mail, Msg};
use crate::outbox::Outbox;
use deneva_base::{Config, NoMemory, Protocol, RowList};
use std::alloc::Global;
use txn_program::Workload;

/// What can be put into a line for one receiver: it names its sender.
pub trait Letter: Drop + Send {
    ghost from: { Self → ℕ };

    fn sender(&self) -> u8
        ensures { result ≡ from self.now };
}

impl Letter for Mail {
    ghost from = { λ m. m.from };

    fn sender(&self) -> u8 {
        self.from
    }
}

/// A node of a run, once it is made. It stands for the messages that it has handled, the newest first; it need not keep
/// them.
pub trait Handles: Sized + Drop {
    /// Its configuration, its workload and its part.
    ghost role: { Self → Role };

    /// The protocol of its configuration.
    ghost protocol: { protocols.Protocol };

    /// What it stands for.
    ghost stands: { Self → List messages.Msg → Type 0 };

    /// Handles a message: what the node says goes to the end of `out`. Want of memory leaves node and mails as they were.
    fn handle(&mut self, from: u8, msg: &Msg, out: &mut Outbox) -> Result<(), NoMemory>
        requires fits { IsFitting (Self.stands self.old) (Self.role self.old) from msg.now }
        ensures role { Self.role self.new ≡ Self.role self.old }
        ensures says { OnOk result (SaysOn (Self.stands self.old) (Self.role self.old) from msg.now out.old.mails out.new.mails) }
        ensures stands { OnOk result (StandsWith (Self.stands self.old) (Self.role self.old) from msg.now (Self.stands self.new)) }
        ensures same_mails { OnErr result (out.new.mails ≡ out.old.mails) }
        ensures same { OnErr result (StandsStill (Self.stands self.old) (Self.stands self.new)) };

    /// A copy of the rows that the messages leave, in key order.
    fn rows(&self) -> Result<RowList, NoMemory>
        ensures order { IfOk result (λ rows. keys_rise rows ≡ true) }
        ensures rows { IfOk result (λ rows. (ms : List messages.Msg) → Self.stands self.now ms → (key : Key) → row_of rows key ≡ rows_of_role (Self.role self.now) ms key) };

    /// In every run of its protocol each mail in flight fits its node.
    ghost fits: { (c : Config) (w : programs.Workload) (H : List Entry) (flight : List Mail) → c.protocol ≡ Self.protocol → IsConfig c → IsValid w → IsRun c w H flight → AllFitting c w H flight };

    /// A run of its protocol is no longer than its configuration and its workload allow.
    ghost ends: { (c : Config) (w : programs.Workload) (H : List Entry) (flight : List Mail) → c.protocol ≡ Self.protocol → IsConfig c → IsValid w → IsRun c w H flight → length H ≤ most_entries c w };

    /// Each mail in flight is for a node that there is.
    ghost lands: { (c : Config) (w : programs.Workload) (H : List Entry) (flight : List Mail) (x : Mail) → c.protocol ≡ Self.protocol → IsConfig c → IsValid w → IsRun c w H flight → IsIn x flight → x.to < c.parts };

    /// A node has no row of another partition's key.
    ghost keeps_apart: { (c : Config) (w : programs.Workload) (H : List Entry) (flight : List Mail) (p : ℕ) (key : Key) → c.protocol ≡ Self.protocol → IsConfig c → IsValid w → IsRun c w H flight → partition_of key c.parts ≢ p → rows_of_node c w p (heard p H) key ≡ None };
}

/// A node of a workload.
pub trait Server<'w>: Handles {
    /// Its protocol.
    fn protocol() -> Protocol
        ensures { result ≡ Self.protocol };

    /// A node that has handled nothing.
    fn begin(alloc: Global, config: Config, part: u8, work: &'w Workload) -> Result<Self, NoMemory>
        requires config { IsConfig config }
        requires valid { IsValid work.now }
        requires protocol { config.protocol ≡ Self.protocol }
        requires part { part < config.parts }
        ensures role { IfOk result (λ s. Self.role s ≡ record { config = config; work = work.now; part = part }) }
        ensures stands { IfOk result (λ s. Self.stands s []) };
}
