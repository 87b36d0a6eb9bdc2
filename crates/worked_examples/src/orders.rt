//! New orders of TPC-C.
ghost use Rattle.std.specs.Prelude.{◌≡◌, ◌∷◌, [], codes, pos, true};
ghost use Rattle.deneva_base.specs.declared.config.Protocol.TheVariants.{Calvin, Maat, Mvcc, NoWait, Timestamp, WaitDie};
ghost use Rattle.server_core.specs.declared.schedules.Schedule.TheVariants.{Fifo};
ghost use Rattle.tpcc_rules.specs.NewOrders.{new_order};
ghost use Rattle.txn_program.specs.Valid.{IsValid};
ghost use Rattle.worked_examples.specs.Reports.{report_of};
ghost use Rattle.worked_examples.specs.TpccLoads.{effect_from_two, order_from_two, order_report, read_by_order, reported, three_report, three_warehouses, twice, unused, unused_report};
ghost use Rattle.worked_examples.specs.Workloads.{over};

/// Two lines of one item change its stock one after the other, and take one access.
pub fn an_item_ordered_twice()
    ensures valid { IsValid twice }
    ensures no_wait { reported NoWait twice ≡ order_report (codes "nowait") }
    ensures wait_die { reported WaitDie twice ≡ order_report (codes "waitdie") }
    ensures timestamp { reported Timestamp twice ≡ order_report (codes "timestamp") }
    ensures mvcc { reported Mvcc twice ≡ order_report (codes "mvcc") }
    ensures maat { reported Maat twice ≡ order_report (codes "maat") }
    ensures calvin { reported Calvin twice ≡ order_report (codes "calvin") }
{}

/// An item that is not loaded rolls the order back: the rows are those of the load.
pub fn an_unused_item()
    ensures valid { IsValid unused }
    ensures no_wait { reported NoWait unused ≡ unused_report (codes "nowait") }
    ensures wait_die { reported WaitDie unused ≡ unused_report (codes "waitdie") }
    ensures timestamp { reported Timestamp unused ≡ unused_report (codes "timestamp") }
    ensures mvcc { reported Mvcc unused ≡ unused_report (codes "mvcc") }
    ensures maat { reported Maat unused ≡ unused_report (codes "maat") }
    ensures calvin { reported Calvin unused ≡ unused_report (codes "calvin") }
{}

/// An order with an item that is not loaded in its last line is rolled back at each of its three partitions.
pub fn a_rollback_over_three_partitions()
    ensures valid { IsValid three_warehouses }
    ensures no_wait { report_of (over NoWait 3) three_warehouses Fifo ≡ three_report (codes "nowait") }
    ensures maat { report_of (over Maat 3) three_warehouses Fifo ≡ three_report (codes "maat") }
    ensures calvin { report_of (over Calvin 3) three_warehouses Fifo ≡ three_report (codes "calvin") }
{}

/// A line from another warehouse counts there as remote, and leaves the order no longer a local one. 15 less 5 leaves 10;
/// 15 less 6 would leave 9, so that stock is refilled.
pub fn a_remote_line()
    ensures { new_order (record { number = 1; price = pos 250; original = true } ∷ []) (record { 0 = 9 }) order_from_two read_by_order ≡ effect_from_two }
{}
