//! That the premises of the laws over runs can be met: by runs over two partitions in which one access waits and is woken,
//! and one transaction is aborted and begins again, until it commits or is given up.
ghost use Rattle.std.specs.Prelude.{◌≡◌, [], ◌∷◌, codes, length, true};
ghost use Rattle.protocol_rules.specs.History.{waits};
ghost use Rattle.deneva_base.specs.declared.config.Protocol.{Protocol};
ghost use Rattle.deneva_base.specs.declared.config.Protocol.TheVariants.{WaitDie};
ghost use Rattle.deneva_base.specs.declared.keys.Mode.TheVariants.{Update};
ghost use Rattle.txn_program.specs.Transactions.{ycsb_key};
ghost use Rattle.txn_program.specs.Valid.{IsValid};
ghost use Rattle.server_core.specs.Atomic.{IsAtomic};
ghost use Rattle.server_core.specs.Configs.{IsConfig};
ghost use Rattle.protocol_rules.specs.Protocols.{IsVoting};
ghost use Rattle.server_core.specs.AttemptEnds.{attempt};
ghost use Rattle.server_core.specs.IsSerial.{IsSerial};
ghost use Rattle.server_core.specs.Limits.{Limits};
ghost use Rattle.server_core.specs.Named.{AllNamed};
ghost use Rattle.server_core.specs.Outcome.{outcome};
ghost use Rattle.server_core.specs.Participant.{calls};
ghost use Rattle.server_core.specs.Picks.{picked};
ghost use Rattle.server_core.specs.Proper.{Valid};
ghost use Rattle.server_core.specs.Received.{started_for};
ghost use Rattle.server_core.specs.ReportOrder.{InReportOrder};
ghost use Rattle.server_core.specs.Runs.{heard};
ghost use Rattle.server_core.specs.Says.{IsRun, IsQuiet};
ghost use Rattle.server_core.specs.Setting.{setting};
ghost use Rattle.server_core.specs.Told.{IsTold};
ghost use Rattle.server_core.specs.declared.schedules.Schedule.TheVariants.{Fifo};
ghost use Rattle.worked_examples.specs.Reports.{after, report_of};
ghost use Rattle.worked_examples.specs.Workloads.{over, three_writers_apart, two_tries};

/// The workload is valid, the configuration within its ranges, its setting has what the laws ask for, and what the schedule
/// picks is a quiet run. After ten deliveries, which are a run too, the first attempt of transaction 1 waits at partition 1;
/// transaction 3 needs three attempts.
pub fn premises_can_be_met()
    ensures workload { IsValid three_writers_apart }
    ensures config { IsConfig (over WaitDie 2) }
    ensures voting { IsVoting WaitDie }
    ensures setting { Valid (setting (over WaitDie 2) three_writers_apart) × Limits (setting (over WaitDie 2) three_writers_apart) }
    ensures quiet { IsQuiet (over WaitDie 2) three_writers_apart (picked (over WaitDie 2) three_writers_apart Fifo) }
    ensures run { IsRun (over WaitDie 2) three_writers_apart (after 10 (over WaitDie 2) three_writers_apart Fifo).entries (after 10 (over WaitDie 2) three_writers_apart Fifo).flight }
    ensures waits { waits (calls (setting (over WaitDie 2) three_writers_apart) 1 (heard 1 (after 10 (over WaitDie 2) three_writers_apart Fifo).entries))
        ≡ record { who = attempt (record { 0 = 1 }) 1; stamp = 1; key = ycsb_key 1; mode = Update } ∷ [] }
    ensures aborts { length (outcome (over WaitDie 2) three_writers_apart (picked (over WaitDie 2) three_writers_apart Fifo)).aborts ≡ 2 }
{}

/// The same with two attempts: one access waits and is woken, transaction 3 is aborted, begins again, is aborted and is given
/// up. The run that the schedule picks meets each premise of the laws and each conclusion, and its report is computed.
pub fn a_quiet_run_meets_the_laws()
    ensures workload { IsValid three_writers_apart }
    ensures config { IsConfig two_tries }
    ensures quiet { IsQuiet two_tries three_writers_apart (picked two_tries three_writers_apart Fifo) }
    ensures waits { waits (calls (setting two_tries three_writers_apart) 1 (heard 1 (after 10 two_tries three_writers_apart Fifo).entries))
        ≡ record { who = attempt (record { 0 = 1 }) 1; stamp = 1; key = ycsb_key 1; mode = Update } ∷ [] }
    ensures restarts { started_for (attempt (record { 0 = 3 }) 2) (heard 1 (picked two_tries three_writers_apart Fifo)) ≡ true }
    ensures report { report_of two_tries three_writers_apart Fifo
        ≡ codes "deneva-report,1,waitdie,2\ncommit,1,2,0,1\nread,0.1.0.0,a\ncommit,2,1,0,0.1\nread,0.8.0.0,b\nread,0.1.0.0,y\ngiveup,3,2\nabort,3,1,5,1,younger,0.1.0.0,2.1,2\nabort,3,2,18,1,younger,0.1.0.0,1.1,1\nrow,0.1.0.0,x\nrow,0.8.0.0,b\nend\n" }
    ensures named { AllNamed two_tries three_writers_apart (picked two_tries three_writers_apart Fifo) (outcome two_tries three_writers_apart (picked two_tries three_writers_apart Fifo)) }
    ensures atomic { IsAtomic two_tries three_writers_apart (picked two_tries three_writers_apart Fifo) }
    ensures serial { IsSerial three_writers_apart (outcome two_tries three_writers_apart (picked two_tries three_writers_apart Fifo)) }
    ensures told { IsTold (setting two_tries three_writers_apart) (picked two_tries three_writers_apart Fifo) (outcome two_tries three_writers_apart (picked two_tries three_writers_apart Fifo)) }
    ensures in_order { InReportOrder (outcome two_tries three_writers_apart (picked two_tries three_writers_apart Fifo)) }
{}

/// The same workload over two partitions meets the premises of the laws under each voting protocol.
pub fn each_voting_protocol_has_quiet_runs()
    ensures config { (p : Protocol) → IsConfig (over p 2) }
    ensures setting { (p : Protocol) → IsVoting p → Valid (setting (over p 2) three_writers_apart) × Limits (setting (over p 2) three_writers_apart) }
    ensures quiet { (p : Protocol) → IsVoting p → IsQuiet (over p 2) three_writers_apart (picked (over p 2) three_writers_apart Fifo) }
{}
