//! Write skew.
ghost use Rattle.std.specs.Prelude.{◌≡◌, codes};
ghost use Rattle.deneva_base.specs.declared.config.Protocol.TheVariants.{Calvin, Maat, Mvcc, Timestamp, WaitDie};
ghost use Rattle.server_core.specs.declared.schedules.Schedule.TheVariants.{Fifo};
ghost use Rattle.worked_examples.specs.Reports.{report_of};
ghost use Rattle.worked_examples.specs.Workloads.{over, write_skew};

/// Each of two transactions reads what the other updates: no protocol lets both read the loaded rows.
pub fn write_skew()
    ensures wait_die { report_of (over WaitDie 1) write_skew Fifo
        ≡ codes "deneva-report,1,waitdie,1\ncommit,1,1,0,0\nread,0.1.0.0,a\nread,0.2.0.0,b\ncommit,2,2,0,0\nread,0.2.0.0,p\nread,0.1.0.0,a\nabort,2,1,7,0,younger,0.1.0.0,1.1,1\nabort,2,2,14,0,younger,0.2.0.0,1.1,1\nrow,0.1.0.0,q\nrow,0.2.0.0,p\nend\n" }
    ensures timestamp { report_of (over Timestamp 1) write_skew Fifo
        ≡ codes "deneva-report,1,timestamp,1\ncommit,2,2,0,0\nread,0.2.0.0,b\nread,0.1.0.0,a\ncommit,4,1,0,0\nread,0.1.0.0,q\nread,0.2.0.0,b\nabort,1,1,6,0,readlater,0.2.0.0,2\nrow,0.1.0.0,q\nrow,0.2.0.0,p\nend\n" }
    ensures mvcc { report_of (over Mvcc 1) write_skew Fifo
        ≡ codes "deneva-report,1,mvcc,1\ncommit,2,2,0,0\nread,0.2.0.0,b\nread,0.1.0.0,a\ncommit,4,1,0,0\nread,0.1.0.0,q\nread,0.2.0.0,b\nabort,1,1,6,0,readlater,0.2.0.0,2\nrow,0.1.0.0,q\nrow,0.2.0.0,p\nend\n" }
    ensures maat { report_of (over Maat 1) write_skew Fifo
        ≡ codes "deneva-report,1,maat,1\ncommit,1,1,0,0\nread,0.1.0.0,a\nread,0.2.0.0,b\ncommit,2,2,0,0\nread,0.2.0.0,p\nread,0.1.0.0,a\nabort,2,1,11,0,emptyrange,4097,0.1.0.0,0,1.1\nrow,0.1.0.0,q\nrow,0.2.0.0,p\nend\n" }
    ensures calvin { report_of (over Calvin 1) write_skew Fifo
        ≡ codes "deneva-report,1,calvin,1\ncommit,1,1,0,0\nread,0.1.0.0,a\nread,0.2.0.0,b\ncommit,2,2,0,0\nread,0.2.0.0,p\nread,0.1.0.0,a\nrow,0.1.0.0,q\nrow,0.2.0.0,p\nend\n" }
{}
