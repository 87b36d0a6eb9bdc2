//! What holds of every run, whatever the protocol, the configuration, the valid workload and the order of deliveries.
ghost use Rattle.std.specs.Prelude.{◌≡◌, ◌≢◌, ◌≤◌, ◌<◌, ℕ, List, length, None};
ghost use Rattle.deneva_base.specs.Lists.{IsIn};
ghost use Rattle.deneva_base.specs.Partitions.{partition_of};
ghost use Rattle.deneva_base.specs.Rows.{row_of};
ghost use Rattle.deneva_base.specs.declared.config.Config.{Config};
ghost use Rattle.deneva_base.specs.declared.keys.Key.{Key};
ghost use Rattle.txn_program.specs.Valid.{IsValid};
ghost use Rattle.txn_program.specs.declared.programs.Workload.{Workload};
ghost use Rattle.protocol_rules.specs.Protocols.{IsVoting};
ghost use Rattle.server_core.specs.Atomic.{IsAtomic};
ghost use Rattle.server_core.specs.Configs.{IsConfig};
ghost use Rattle.server_core.specs.Fits.{AllFitting};
ghost use Rattle.server_core.specs.IsSerial.{IsSerial};
ghost use Rattle.server_core.specs.Named.{AllNamed};
ghost use Rattle.server_core.specs.NodeRows.{rows_of_node};
ghost use Rattle.server_core.specs.Outcome.{outcome};
ghost use Rattle.server_core.specs.Picks.{most_entries, picked};
ghost use Rattle.server_core.specs.ReportOrder.{InReportOrder};
ghost use Rattle.server_core.specs.RunAccount.{RunAccount};
ghost use Rattle.server_core.specs.Runs.{heard};
ghost use Rattle.server_core.specs.Says.{IsRun, IsQuiet};
ghost use Rattle.server_core.specs.Setting.{setting};
ghost use Rattle.server_core.specs.Told.{IsTold};
ghost use Rattle.server_core.specs.declared.messages.Entry.{Entry};
ghost use Rattle.server_core.specs.declared.messages.Mail.{Mail};
ghost use Rattle.server_core.specs.declared.schedules.Schedule.{Schedule};

/// In every run each mail in flight fits its node, and is from a node that there is and to one; the run is no longer than a
/// bound that the configuration and the workload give, and its entries tell what is in flight; no node has a row of another
/// partition's key; each abort line of the outcome names what the rule found; and where the protocol votes, the account of
/// each attempt holds. What a schedule picks is a quiet run. In every quiet run each transaction is decided at all its
/// participants or at none; each decided one committed once at each of its participants, with its number, and nowhere else,
/// and a given-up one nowhere; the decided transactions, executed one at a time in the order of their numbers, give each
/// its reads and the final rows; those are the nodes' rows; and the outcome lists its lines in the order of a report.
pub fn runs_are_right()
    ensures fits { (c : Config) (w : Workload) (H : List Entry) (flight : List Mail) → IsConfig c → IsValid w → IsRun c w H flight → AllFitting c w H flight }
    ensures short { (c : Config) (w : Workload) (H : List Entry) (flight : List Mail) → IsConfig c → IsValid w → IsRun c w H flight → length H ≤ most_entries c w }
    ensures lands { (c : Config) (w : Workload) (H : List Entry) (flight : List Mail) (x : Mail) → IsConfig c → IsValid w → IsRun c w H flight → IsIn x flight → (x.from < c.parts) × (x.to < c.parts) }
    ensures kept_apart { (c : Config) (w : Workload) (H : List Entry) (flight : List Mail) (p : ℕ) (key : Key) → IsConfig c → IsValid w → IsRun c w H flight → partition_of key c.parts ≢ p → rows_of_node c w p (heard p H) key ≡ None }
    ensures flight { (c : Config) (w : Workload) (H : List Entry) (flight other : List Mail) → IsRun c w H flight → IsRun c w H other → flight ≡ other }
    ensures named { (c : Config) (w : Workload) (H : List Entry) (flight : List Mail) → IsConfig c → IsValid w → IsRun c w H flight → AllNamed c w H (outcome c w H) }
    ensures account { (c : Config) (w : Workload) (H : List Entry) (flight : List Mail) → IsConfig c → IsValid w → IsVoting c.protocol → IsRun c w H flight → RunAccount (setting c w) H flight }
    ensures picked { (c : Config) (w : Workload) (schedule : Schedule) → IsConfig c → IsValid w → IsQuiet c w (picked c w schedule) }
    ensures atomic { (c : Config) (w : Workload) (H : List Entry) → IsConfig c → IsValid w → IsQuiet c w H → IsAtomic c w H }
    ensures serial { (c : Config) (w : Workload) (H : List Entry) → IsConfig c → IsValid w → IsQuiet c w H → IsSerial w (outcome c w H) }
    ensures told { (c : Config) (w : Workload) (H : List Entry) → IsConfig c → IsValid w → IsQuiet c w H → IsTold (setting c w) H (outcome c w H) }
    ensures in_order { (c : Config) (w : Workload) (H : List Entry) → IsConfig c → IsValid w → IsQuiet c w H → InReportOrder (outcome c w H) }
    ensures rows { (c : Config) (w : Workload) (H : List Entry) (key : Key) → IsConfig c → IsValid w → IsQuiet c w H → rows_of_node c w (partition_of key c.parts) (heard (partition_of key c.parts) H) key ≡ row_of (outcome c w H).rows key }
{}
