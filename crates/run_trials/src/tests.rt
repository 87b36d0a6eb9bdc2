//! A run under NO_WAIT, against the entries worked out by hand, and the same run stopped and resumed.
ghost use Rattle.std.specs.Prelude.{◌≡◌};
ghost use Rattle.deneva_base.specs.declared.config.Protocol.TheVariants.{NoWait};

use super::*;
use crate::by_hand;
use crate::works::meeting_work;
use deneva_base::{Config, Protocol};
use lock_control::Locks;
use node_core::Node;
use server_core::Schedule;
use std::test::Fail;
use txn_program::valid;

/// Two partitions, two attempts for each transaction, and one transaction of a node open at a time.
fn small_config() -> Config
    ensures { result ≡ record { protocol = NoWait; parts = 2; attempts = 2; limit = 1 } }
{
    Config {
        protocol: Protocol::NoWait,
        parts: 2,
        attempts: 2,
        limit: 1,
    }
}

#[test]
fn entries_worked_out_by_hand(rt: HostRuntime) -> Result<(), Fail> {
    let alloc = rt.alloc();
    let work = meeting_work(alloc)?;
    assert!(rt; valid(&work));
    let history = history_of::<Node<Locks<0>>>(alloc, small_config(), &work, &Schedule::Fifo)?;
    assert_eq!(rt; history, by_hand::entries(alloc)?);
    Ok(())
}

#[test]
fn a_resumed_run_ends_as_the_whole_run(rt: HostRuntime) -> Result<(), Fail> {
    let alloc = rt.alloc();
    let work = meeting_work(alloc)?;
    assert!(rt; valid(&work));
    let whole = by_hand::entries(alloc)?;
    // At place 15 transaction 1 has aborted and 2 is voted on.
    for deliveries in [0, 1, 15, 100] {
        let resumed = resumed_history::<Node<Locks<0>>>(alloc, small_config(), &work, deliveries)?;
        assert!(rt; resumed == whole, "after {deliveries}");
    }
    Ok(())
}
