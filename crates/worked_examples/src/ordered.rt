//! Calvin.
ghost use Rattle.std.specs.Prelude.{◌≡◌, codes};
ghost use Rattle.deneva_base.specs.declared.config.Protocol.TheVariants.{Calvin};
ghost use Rattle.server_core.specs.declared.schedules.Schedule.TheVariants.{Fifo, Lifo};
ghost use Rattle.worked_examples.specs.Reports.{report_of};
ghost use Rattle.worked_examples.specs.Workloads.{crossing, over};

/// The same transactions under Calvin, whose report no schedule changes.
pub fn crossing_transactions_in_a_global_order()
    ensures fifo { report_of (over Calvin 2) crossing Fifo
        ≡ codes "deneva-report,1,calvin,2\ncommit,1,1,0,0\nread,0.4.0.0,a\ncommit,2,2,0,0.1\nread,0.4.0.0,A\nread,0.2.0.0,b\nread,0.1.0.0,c\ncommit,3,3,0,0.1\nread,0.2.0.0,b\nread,0.1.0.0,C\nrow,0.1.0.0,C\nrow,0.2.0.0,B\nrow,0.4.0.0,A\nend\n" }
    ensures lifo { report_of (over Calvin 2) crossing Lifo
        ≡ codes "deneva-report,1,calvin,2\ncommit,1,1,0,0\nread,0.4.0.0,a\ncommit,2,2,0,0.1\nread,0.4.0.0,A\nread,0.2.0.0,b\nread,0.1.0.0,c\ncommit,3,3,0,0.1\nread,0.2.0.0,b\nread,0.1.0.0,C\nrow,0.1.0.0,C\nrow,0.2.0.0,B\nrow,0.4.0.0,A\nend\n" }
{}
