//! That the premises of the laws over runs of Calvin can be met.
ghost use Rattle.std.specs.Prelude.{◌≡◌, ◌∷◌, codes, true, false, slice_get, Some};
ghost use Rattle.deneva_base.specs.Keys.{NumberLt};
ghost use Rattle.deneva_base.specs.Lists.{IsIn};
ghost use Rattle.deneva_base.specs.Partitions.{partition_of};
ghost use Rattle.deneva_base.specs.declared.keys.Mode.TheVariants.{Read};
ghost use Rattle.txn_program.specs.Serial.{all_ids};
ghost use Rattle.txn_program.specs.Transactions.{ycsb_key};
ghost use Rattle.txn_program.specs.Valid.{IsValid};
ghost use Rattle.server_core.specs.CalvinFits.{AllFit};
ghost use Rattle.server_core.specs.CalvinProper.{Valid, Forms, Limits};
ghost use Rattle.server_core.specs.CalvinScheduler.{taken, is_finished, is_ready};
ghost use Rattle.server_core.specs.Configs.{IsConfig};
ghost use Rattle.server_core.specs.GlobalOrder.{epochs, batch, order, before, number, has_id};
ghost use Rattle.server_core.specs.Picks.{PicksOne, position, picked};
ghost use Rattle.server_core.specs.Ready.{IsReady};
ghost use Rattle.server_core.specs.Says.{IsRun, IsQuiet};
ghost use Rattle.server_core.specs.declared.schedules.Schedule.TheVariants.{Fifo};
ghost use Rattle.worked_examples.specs.Reports.{report_of};
ghost use Rattle.worked_examples.specs.TwoEpochs.{by_calvin, its_setting, run_after, handled_after, nth, first_read};
ghost use Rattle.worked_examples.specs.Workloads.{loads, two_epochs};

/// Nine transactions begin at one of two partitions, so the last stands in a second epoch; the first takes part at both, and
/// the others conflict with it. The workload is valid, the configuration within its ranges, its setting has what the laws
/// ask for, and what the schedule picks is a quiet run, whose report is computed. A batch makes transaction 1 ready at
/// partition 0. After thirteen deliveries, which are a run too, transaction 2 is taken at partition 1 and blocked by
/// transaction 1, whose rows of both partitions are in flight or handled; the next message there finishes that and makes
/// transaction 2 ready.
pub fn calvin_premises_can_be_met()
    ensures workload { IsValid two_epochs }
    ensures config { IsConfig by_calvin }
    ensures setting { Valid its_setting × Forms its_setting × Limits its_setting }
    ensures epochs { epochs its_setting ≡ 2 }
    ensures order { order its_setting ≡ all_ids two_epochs }
    ensures second { slice_get (batch its_setting (record { epoch = 1; seq = 1 })) 0 ≡ Some (nth 9) }
    ensures before { IsIn (nth 1) (before (nth 9) (order its_setting)) × NumberLt (number its_setting (nth 1)) (number its_setting (nth 9)) }
    ensures picks { PicksOne (position Fifo) }
    ensures quiet { IsQuiet by_calvin two_epochs (picked by_calvin two_epochs Fifo) }
    ensures run { IsRun by_calvin two_epochs (run_after 13).entries (run_after 13).flight }
    ensures fit { AllFit its_setting 1 (handled_after 13 1) }
    ensures flies { IsIn (record { from = 1; to = 1; msg = first_read 1 (loads 1 (codes "a")) }) (run_after 13).flight }
    ensures handled { IsIn (first_read 0 (loads 8 (codes "b"))) (handled_after 13 1) }
    ensures next { handled_after 14 1 ≡ first_read 1 (loads 1 (codes "a")) ∷ handled_after 13 1 }
    ensures by_batch { (is_ready its_setting 0 (handled_after 5 0) (nth 1) ≡ false) × (is_ready its_setting 0 (handled_after 6 0) (nth 1) ≡ true) }
    ensures blocked { (has_id (nth 2) (taken its_setting (handled_after 13 1)) ≡ true) × (is_ready its_setting 1 (handled_after 13 1) (nth 2) ≡ false) }
    ensures finishes { (is_finished its_setting (handled_after 13 1) (nth 1) ≡ false) × (is_finished its_setting (handled_after 14 1) (nth 1) ≡ true) }
    ensures ready { IsReady its_setting 1 (handled_after 14 1) (nth 2) }
    ensures access { IsIn (record { key = ycsb_key 1; mode = Read }) (its_setting.accesses (nth 2)) × (partition_of (ycsb_key 1) its_setting.parts ≡ 1) }
    ensures report { report_of by_calvin two_epochs Fifo
        ≡ codes "deneva-report,1,calvin,2\ncommit,9,1,0,0.1\nread,0.1.0.0,a\nread,0.8.0.0,b\ncommit,10,2,0,1\nread,0.1.0.0,x\ncommit,11,3,0,1\nread,0.1.0.0,x\ncommit,12,4,0,1\nread,0.1.0.0,x\ncommit,13,5,0,1\nread,0.1.0.0,x\ncommit,14,6,0,1\nread,0.1.0.0,x\ncommit,15,7,0,1\nread,0.1.0.0,x\ncommit,16,8,0,1\nread,0.1.0.0,x\ncommit,25,9,0,1\nread,0.1.0.0,x\nrow,0.1.0.0,x\nrow,0.8.0.0,b\nend\n" }
{}
