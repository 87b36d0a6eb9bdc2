//! Writes that read nothing.
ghost use Rattle.std.specs.Prelude.{◌≡◌, codes, [], ◌∷◌};
ghost use Rattle.deneva_base.specs.declared.config.Protocol.TheVariants.{Calvin, Maat, Mvcc, NoWait, Timestamp, WaitDie};
ghost use Rattle.server_core.specs.declared.schedules.Schedule.TheVariants.{Listed};
ghost use Rattle.worked_examples.specs.Reports.{report_of};
ghost use Rattle.worked_examples.specs.Workloads.{blind_writes, over};

/// Two transactions put one row, and the second ends first. Where numbers follow stamps or the global order its row is the
/// last one; where they follow the commits it is the other.
pub fn writes_that_read_nothing()
    ensures timestamp { report_of (over Timestamp 1) blind_writes (Listed (0 ∷ 0 ∷ 1 ∷ 1 ∷ 1 ∷ 1 ∷ 1 ∷ 1 ∷ []))
        ≡ codes "deneva-report,1,timestamp,1\ncommit,1,1,0,0\nread,0.9.0.0,b\ncommit,2,2,0,0\nrow,0.1.0.0,y\nrow,0.9.0.0,b\nend\n" }
    ensures mvcc { report_of (over Mvcc 1) blind_writes (Listed (0 ∷ 0 ∷ 1 ∷ 1 ∷ 1 ∷ 1 ∷ 1 ∷ 1 ∷ []))
        ≡ codes "deneva-report,1,mvcc,1\ncommit,1,1,0,0\nread,0.9.0.0,b\ncommit,2,2,0,0\nrow,0.1.0.0,y\nrow,0.9.0.0,b\nend\n" }
    ensures calvin { report_of (over Calvin 1) blind_writes (Listed (0 ∷ 0 ∷ 1 ∷ 1 ∷ 1 ∷ 1 ∷ 1 ∷ 1 ∷ []))
        ≡ codes "deneva-report,1,calvin,1\ncommit,1,1,0,0\nread,0.9.0.0,b\ncommit,2,2,0,0\nrow,0.1.0.0,y\nrow,0.9.0.0,b\nend\n" }
    ensures no_wait { report_of (over NoWait 1) blind_writes (Listed (0 ∷ 0 ∷ 1 ∷ 1 ∷ 1 ∷ 1 ∷ 1 ∷ 1 ∷ []))
        ≡ codes "deneva-report,1,nowait,1\ncommit,1,2,0,0\ncommit,2,1,0,0\nread,0.9.0.0,b\nrow,0.1.0.0,x\nrow,0.9.0.0,b\nend\n" }
    ensures wait_die { report_of (over WaitDie 1) blind_writes (Listed (0 ∷ 0 ∷ 1 ∷ 1 ∷ 1 ∷ 1 ∷ 1 ∷ 1 ∷ []))
        ≡ codes "deneva-report,1,waitdie,1\ncommit,1,2,0,0\ncommit,2,1,0,0\nread,0.9.0.0,b\nrow,0.1.0.0,x\nrow,0.9.0.0,b\nend\n" }
    ensures maat { report_of (over Maat 1) blind_writes (Listed (0 ∷ 0 ∷ 1 ∷ 1 ∷ 1 ∷ 1 ∷ 1 ∷ 1 ∷ []))
        ≡ codes "deneva-report,1,maat,1\ncommit,1,2,0,0\ncommit,2,1,0,0\nread,0.9.0.0,b\nrow,0.1.0.0,x\nrow,0.9.0.0,b\nend\n" }
{}
