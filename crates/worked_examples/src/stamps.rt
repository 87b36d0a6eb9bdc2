//! The two protocols by stamps.
ghost use Rattle.std.specs.Prelude.{◌≡◌, codes, [], ◌∷◌};
ghost use Rattle.deneva_base.specs.declared.config.Protocol.TheVariants.{Mvcc, Timestamp};
ghost use Rattle.server_core.specs.declared.schedules.Schedule.TheVariants.{Fifo, Listed};
ghost use Rattle.worked_examples.specs.Reports.{report_of};
ghost use Rattle.worked_examples.specs.Workloads.{late_update, old_read, over, trimmed_read};

/// Under TIMESTAMP an update is refused where a later transaction has read.
pub fn an_update_too_late()
    ensures report { report_of (over Timestamp 1) late_update Fifo
        ≡ codes "deneva-report,1,timestamp,1\ncommit,2,2,0,0\nread,0.1.0.0,a\ncommit,4,1,0,0\nread,0.9.0.0,b\nread,0.1.0.0,a\nabort,1,1,6,0,readlater,0.1.0.0,2\nrow,0.1.0.0,x\nrow,0.9.0.0,b\nend\n" }
{}

/// A read behind a later write: TIMESTAMP refuses it, and MVCC serves it from the version before.
pub fn an_old_read()
    ensures timestamp { report_of (over Timestamp 1) old_read (Listed (0 ∷ 0 ∷ 1 ∷ 1 ∷ 1 ∷ 1 ∷ 1 ∷ 1 ∷ []))
        ≡ codes "deneva-report,1,timestamp,1\ncommit,2,2,0,0\nread,0.1.0.0,a\ncommit,4,1,0,0\nread,0.9.0.0,b\nread,0.1.0.0,y\nabort,1,1,10,0,written,0.1.0.0,2\nrow,0.1.0.0,y\nrow,0.9.0.0,b\nend\n" }
    ensures mvcc { report_of (over Mvcc 1) old_read (Listed (0 ∷ 0 ∷ 1 ∷ 1 ∷ 1 ∷ 1 ∷ 1 ∷ 1 ∷ []))
        ≡ codes "deneva-report,1,mvcc,1\ncommit,1,1,0,0\nread,0.9.0.0,b\nread,0.1.0.0,a\ncommit,2,2,0,0\nread,0.1.0.0,a\nrow,0.1.0.0,y\nrow,0.9.0.0,b\nend\n" }
{}

/// Under MVCC with four versions of a key, four updates push out the version that an old read would have had.
pub fn a_trimmed_version()
    ensures report { report_of (over Mvcc 1) trimmed_read (Listed (0 ∷ 0 ∷ 4 ∷ 4 ∷ 4 ∷ 4 ∷ 4 ∷ 4 ∷ 0 ∷ 3 ∷ 3 ∷ 3 ∷ 3 ∷ 3 ∷ 3 ∷ 0 ∷ 2 ∷ 2 ∷ 2 ∷ 2 ∷ 2 ∷ 2 ∷ 0 ∷ 1 ∷ 1 ∷ 1 ∷ 1 ∷ 1 ∷ 1 ∷ []))
        ≡ codes "deneva-report,1,mvcc,1\ncommit,2,2,0,0\nread,0.1.0.0,a\ncommit,3,3,0,0\nread,0.1.0.0,w\ncommit,4,4,0,0\nread,0.1.0.0,x\ncommit,5,5,0,0\nread,0.1.0.0,y\ncommit,6,1,0,0\nread,0.9.0.0,b\nread,0.1.0.0,z\nabort,1,1,31,0,trimmed,0.1.0.0,2\nrow,0.1.0.0,z\nrow,0.9.0.0,b\nend\n" }
{}
