//! The two lock protocols.
ghost use Rattle.std.specs.Prelude.{◌≡◌, codes};
ghost use Rattle.deneva_base.specs.declared.config.Protocol.TheVariants.{NoWait, WaitDie};
ghost use Rattle.server_core.specs.declared.schedules.Schedule.TheVariants.{Fifo, Lifo};
ghost use Rattle.worked_examples.specs.Reports.{report_of};
ghost use Rattle.worked_examples.specs.Workloads.{over, three_writers, three_writers_apart, two_partitions, two_readers, two_updates, write_skew};

/// Two updates of one key under NO_WAIT. In the order said the second is refused once; last said first, it ends before the
/// first begins.
pub fn two_updates_of_one_key()
    ensures fifo { report_of (over NoWait 1) two_updates Fifo
        ≡ codes "deneva-report,1,nowait,1\ncommit,1,1,0,0\nread,0.1.0.0,a\ncommit,2,2,0,0\nread,0.1.0.0,x\nabort,2,1,3,0,held,0.1.0.0,1.1\nrow,0.1.0.0,y\nend\n" }
    ensures lifo { report_of (over NoWait 1) two_updates Lifo
        ≡ codes "deneva-report,1,nowait,1\ncommit,1,2,0,0\nread,0.1.0.0,a\ncommit,2,1,0,0\nread,0.1.0.0,y\nrow,0.1.0.0,x\nend\n" }
{}

/// Two readers of a key share a number, and an updater is refused while one of them holds the key.
pub fn two_readers_and_an_updater()
    ensures report { report_of (over NoWait 1) two_readers Fifo
        ≡ codes "deneva-report,1,nowait,1\ncommit,1,1,0,0\nread,0.1.0.0,a\ncommit,1,2,0,0\nread,0.1.0.0,a\ncommit,2,3,0,0\nread,0.1.0.0,a\nabort,3,1,5,0,held,0.1.0.0,1.1\nrow,0.1.0.0,z\nend\n" }
{}

/// Under WAIT_DIE the oldest transaction waits and is woken, and the youngest dies twice.
pub fn a_waiter_is_woken()
    ensures report { report_of (over WaitDie 1) three_writers Fifo
        ≡ codes "deneva-report,1,waitdie,1\ncommit,1,2,0,0\nread,0.1.0.0,a\ncommit,2,1,0,0\nread,0.9.0.0,b\nread,0.1.0.0,y\ncommit,3,3,0,0\nread,0.1.0.0,x\nabort,3,1,5,0,younger,0.1.0.0,2.1,2\nabort,3,2,18,0,younger,0.1.0.0,1.1,1\nrow,0.1.0.0,z\nrow,0.9.0.0,b\nend\n" }
{}

/// With two attempts, two transactions that refuse each other in each are given up.
pub fn two_attempts_and_no_more()
    ensures report { report_of (record { protocol = NoWait; parts = 1; attempts = 2; limit = 16 }) write_skew Fifo
        ≡ codes "deneva-report,1,nowait,1\ngiveup,1,2\ngiveup,2,2\nabort,1,1,6,0,held,0.2.0.0,2.1\nabort,1,2,20,0,held,0.2.0.0,2.2\nabort,2,1,7,0,held,0.1.0.0,1.1\nabort,2,2,21,0,held,0.1.0.0,1.2\nrow,0.1.0.0,a\nrow,0.2.0.0,b\nend\n" }
{}

/// A transaction over two partitions is refused at one of them, and commits at both later.
pub fn two_partitions_under_no_wait()
    ensures report { report_of (over NoWait 2) two_partitions Fifo
        ≡ codes "deneva-report,1,nowait,2\ncommit,1,2,0,0\nread,0.2.0.0,b\ncommit,2,1,0,0.1\nread,0.1.0.0,a\nread,0.2.0.0,q\nabort,1,1,7,0,held,0.2.0.0,2.1\nrow,0.1.0.0,x\nrow,0.2.0.0,y\nend\n" }
{}

/// Under WAIT_DIE at two partitions, a transaction of the first waits at the second and is woken there, and another dies twice.
pub fn a_wait_at_another_partition()
    ensures report { report_of (over WaitDie 2) three_writers_apart Fifo
        ≡ codes "deneva-report,1,waitdie,2\ncommit,1,2,0,1\nread,0.1.0.0,a\ncommit,2,1,0,0.1\nread,0.8.0.0,b\nread,0.1.0.0,y\ncommit,3,3,0,1\nread,0.1.0.0,x\nabort,3,1,5,1,younger,0.1.0.0,2.1,2\nabort,3,2,18,1,younger,0.1.0.0,1.1,1\nrow,0.1.0.0,z\nrow,0.8.0.0,b\nend\n" }
{}
