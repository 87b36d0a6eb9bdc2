//! What holds of every run of a voting protocol, whatever the configuration, the valid workload and the order of
//! deliveries.
ghost use Rattle.std.specs.Prelude.{◌≡◌, ◌≤◌, List, length};
ghost use Rattle.deneva_base.specs.Partitions.{partition_of};
ghost use Rattle.deneva_base.specs.Rows.{row_of};
ghost use Rattle.deneva_base.specs.declared.config.Config.{Config};
ghost use Rattle.deneva_base.specs.declared.keys.Key.{Key};
ghost use Rattle.deneva_base.specs.declared.numbers.Attempt.{Attempt};
ghost use Rattle.txn_program.specs.Valid.{IsValid};
ghost use Rattle.txn_program.specs.declared.programs.Workload.{Workload};
ghost use Rattle.server_core.specs.AbortsListed.{ListsAborts};
ghost use Rattle.server_core.specs.Atomic.{IsAtomic};
ghost use Rattle.server_core.specs.Configs.{IsConfig};
ghost use Rattle.protocol_rules.specs.Protocols.{IsVoting};
ghost use Rattle.server_core.specs.Fits.{AllFitting};
ghost use Rattle.server_core.specs.IsSerial.{IsSerial};
ghost use Rattle.server_core.specs.Limits.{is_of, count_entries, most_of};
ghost use Rattle.server_core.specs.Named.{AllNamed};
ghost use Rattle.server_core.specs.NextHome.{BeginsNext};
ghost use Rattle.server_core.specs.Participant.{node_rows};
ghost use Rattle.server_core.specs.Outcome.{outcome};
ghost use Rattle.server_core.specs.Picks.{most_entries, picked};
ghost use Rattle.server_core.specs.ReportOrder.{InReportOrder};
ghost use Rattle.server_core.specs.RunAccount.{RunAccount};
ghost use Rattle.server_core.specs.Runs.{heard};
ghost use Rattle.server_core.specs.Says.{IsRun, IsQuiet};
ghost use Rattle.server_core.specs.Setting.{setting};
ghost use Rattle.server_core.specs.Told.{IsTold};
ghost use Rattle.server_core.specs.VotingAtomic.{CommitsAgree};
ghost use Rattle.server_core.specs.VotingRuns.{Small};
ghost use Rattle.server_core.specs.VotingStamps.{StampsTell};
ghost use Rattle.server_core.specs.declared.messages.Entry.{Entry};
ghost use Rattle.server_core.specs.declared.messages.Mail.{Mail};
ghost use Rattle.server_core.specs.declared.schedules.Schedule.{Schedule};

/// In every run each mail in flight fits its node, the run is no longer than a bound that the configuration and the
/// workload give, its outcome lists its lines in the order of a report, each abort line names what the rule found, and
/// there is exactly one for each attempt of which an Abort was said. What a schedule picks is a quiet run. In every quiet
/// run each transaction is committed at all its participants or at none; each decided one has one Commit at each of its
/// participants, with its number, and a given-up one has none; the decided transactions, executed one at a time in the
/// order of their numbers, give each its reads and the final rows; and those are the nodes' rows.
pub fn voting_runs_are_right()
    ensures fits { (c : Config) (w : Workload) (H : List Entry) (flight : List Mail) → IsConfig c → IsValid w → IsVoting c.protocol → IsRun c w H flight → AllFitting c w H flight }
    ensures short { (c : Config) (w : Workload) (H : List Entry) (flight : List Mail) → IsConfig c → IsValid w → IsVoting c.protocol → IsRun c w H flight → length H ≤ most_entries c w }
    ensures named { (c : Config) (w : Workload) (H : List Entry) (flight : List Mail) → IsConfig c → IsValid w → IsVoting c.protocol → IsRun c w H flight → AllNamed c w H (outcome c w H) }
    ensures listed { (c : Config) (w : Workload) (H : List Entry) (flight : List Mail) → IsConfig c → IsValid w → IsVoting c.protocol → IsRun c w H flight → ListsAborts (setting c w) H (outcome c w H).aborts }
    ensures picked { (c : Config) (w : Workload) (schedule : Schedule) → IsConfig c → IsValid w → IsVoting c.protocol → IsQuiet c w (picked c w schedule) }
    ensures atomic { (c : Config) (w : Workload) (H : List Entry) → IsConfig c → IsValid w → IsVoting c.protocol → IsQuiet c w H → IsAtomic c w H }
    ensures serial { (c : Config) (w : Workload) (H : List Entry) → IsConfig c → IsValid w → IsVoting c.protocol → IsQuiet c w H → IsSerial w (outcome c w H) }
    ensures told { (c : Config) (w : Workload) (H : List Entry) → IsConfig c → IsValid w → IsVoting c.protocol → IsQuiet c w H → IsTold (setting c w) H (outcome c w H) }
    ensures in_order { (c : Config) (w : Workload) (H : List Entry) (flight : List Mail) → IsConfig c → IsValid w → IsVoting c.protocol → IsRun c w H flight → InReportOrder (outcome c w H) }
    ensures rows { (c : Config) (w : Workload) (H : List Entry) (key : Key) → IsConfig c → IsValid w → IsVoting c.protocol → IsQuiet c w H → node_rows (setting c w) (partition_of key c.parts) (heard (partition_of key c.parts) H) key ≡ row_of (outcome c w H).rows key }
{}

/// In every run the account of each attempt holds: what is in flight for it, waits, or was handled. The next home
/// transaction that a node begins is the first in file order of which no attempt is begun. An attempt with a accesses and m
/// participants has at most 1 + 2a + 4m entries, and the numbers of the run stay below 2^48. The Commits of a transaction
/// are of one attempt and one number, in the windows voted; all Asks of an attempt have one stamp, and those of different
/// transactions have different ones.
pub fn voting_runs_keep_account()
    ensures account { (c : Config) (w : Workload) (H : List Entry) (flight : List Mail) → IsConfig c → IsValid w → IsVoting c.protocol → IsRun c w H flight → RunAccount (setting c w) H flight }
    ensures next { (c : Config) (w : Workload) (H : List Entry) (flight : List Mail) → IsConfig c → IsValid w → IsVoting c.protocol → IsRun c w H flight → BeginsNext (setting c w) H }
    ensures entries { (c : Config) (w : Workload) (H : List Entry) (flight : List Mail) (who : Attempt) → IsConfig c → IsValid w → IsVoting c.protocol → IsRun c w H flight → count_entries (λ e. is_of who e.msg) H ≤ most_of (setting c w) who.txn }
    ensures small { (c : Config) (w : Workload) (H : List Entry) (flight : List Mail) → IsConfig c → IsValid w → IsVoting c.protocol → IsRun c w H flight → Small H flight }
    ensures commits { (c : Config) (w : Workload) (H : List Entry) (flight : List Mail) → IsConfig c → IsValid w → IsVoting c.protocol → IsRun c w H flight → CommitsAgree (setting c w) H }
    ensures stamps { (c : Config) (w : Workload) (H : List Entry) (flight : List Mail) → IsConfig c → IsValid w → IsVoting c.protocol → IsRun c w H flight → StampsTell H }
{}
