//! The least workloads.
ghost use Rattle.std.specs.Prelude.{◌≡◌, codes};
ghost use Rattle.deneva_base.specs.declared.config.Protocol.TheVariants.{Calvin, Maat, Mvcc, NoWait, Timestamp, WaitDie};
ghost use Rattle.server_core.specs.declared.schedules.Schedule.TheVariants.{Fifo};
ghost use Rattle.worked_examples.specs.Reports.{report_of};
ghost use Rattle.worked_examples.specs.Workloads.{no_transaction, one_update, over, quoted_update};

/// Without a transaction the rows are those that were loaded, at one partition and at sixteen.
pub fn no_transaction()
    ensures no_wait_1 { report_of (over NoWait 1) no_transaction Fifo
        ≡ codes "deneva-report,1,nowait,1\nrow,0.2.0.0,b\nrow,0.5.0.0,a\nend\n" }
    ensures no_wait_16 { report_of (over NoWait 16) no_transaction Fifo
        ≡ codes "deneva-report,1,nowait,16\nrow,0.2.0.0,b\nrow,0.5.0.0,a\nend\n" }
    ensures calvin_1 { report_of (over Calvin 1) no_transaction Fifo
        ≡ codes "deneva-report,1,calvin,1\nrow,0.2.0.0,b\nrow,0.5.0.0,a\nend\n" }
    ensures calvin_16 { report_of (over Calvin 16) no_transaction Fifo
        ≡ codes "deneva-report,1,calvin,16\nrow,0.2.0.0,b\nrow,0.5.0.0,a\nend\n" }
{}

/// One update has the same report under each protocol.
pub fn one_update()
    ensures no_wait { report_of (over NoWait 1) one_update Fifo
        ≡ codes "deneva-report,1,nowait,1\ncommit,1,1,0,0\nread,0.1.0.0,a\nrow,0.1.0.0,z\nend\n" }
    ensures wait_die { report_of (over WaitDie 1) one_update Fifo
        ≡ codes "deneva-report,1,waitdie,1\ncommit,1,1,0,0\nread,0.1.0.0,a\nrow,0.1.0.0,z\nend\n" }
    ensures timestamp { report_of (over Timestamp 1) one_update Fifo
        ≡ codes "deneva-report,1,timestamp,1\ncommit,1,1,0,0\nread,0.1.0.0,a\nrow,0.1.0.0,z\nend\n" }
    ensures mvcc { report_of (over Mvcc 1) one_update Fifo
        ≡ codes "deneva-report,1,mvcc,1\ncommit,1,1,0,0\nread,0.1.0.0,a\nrow,0.1.0.0,z\nend\n" }
    ensures maat { report_of (over Maat 1) one_update Fifo
        ≡ codes "deneva-report,1,maat,1\ncommit,1,1,0,0\nread,0.1.0.0,a\nrow,0.1.0.0,z\nend\n" }
    ensures calvin { report_of (over Calvin 1) one_update Fifo
        ≡ codes "deneva-report,1,calvin,1\ncommit,1,1,0,0\nread,0.1.0.0,a\nrow,0.1.0.0,z\nend\n" }
{}

/// Texts with commas, double quotes and line feeds are quoted, and no other field is.
pub fn quoted_texts()
    ensures { report_of (over NoWait 1) quoted_update Fifo
        ≡ codes "deneva-report,1,nowait,1\ncommit,1,1,0,0\nread,0.1.0.0,\"a,\"\"b\"\"\n\"\nrow,0.1.0.0,\",\"\nend\n" }
{}
