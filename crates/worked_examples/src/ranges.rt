//! MAAT.
ghost use Rattle.std.specs.Prelude.{◌≡◌, codes, [], ◌∷◌};
ghost use Rattle.deneva_base.specs.declared.config.Protocol.TheVariants.{Maat};
ghost use Rattle.server_core.specs.declared.schedules.Schedule.TheVariants.{Listed};
ghost use Rattle.worked_examples.specs.Reports.{report_of};
ghost use Rattle.worked_examples.specs.Workloads.{crossing, over};

/// Under MAAT at two partitions, a transaction is prepared at both while the commit of another is on its way to one of them,
/// and the two windows do not meet.
pub fn windows_apart()
    ensures report { report_of (over Maat 2) crossing (Listed (0 ∷ 2 ∷ 2 ∷ 2 ∷ 2 ∷ 2 ∷ 2 ∷ 0 ∷ 0 ∷ 0 ∷ 0 ∷ 0 ∷ 0 ∷ 0 ∷ 0 ∷ 0 ∷ 0 ∷ 0 ∷ 2 ∷ 2 ∷ 2 ∷ 2 ∷ 2 ∷ 2 ∷ []))
        ≡ codes "deneva-report,1,maat,2\ncommit,1,1,0,0\nread,0.4.0.0,a\ncommit,2,2,0,0.1\nread,0.4.0.0,A\nread,0.2.0.0,b\nread,0.1.0.0,c\ncommit,3,3,0,0.1\nread,0.2.0.0,b\nread,0.1.0.0,C\nabort,3,1,29,0,apart,3,0,1,1\nrow,0.1.0.0,C\nrow,0.2.0.0,B\nrow,0.4.0.0,A\nend\n" }
{}
