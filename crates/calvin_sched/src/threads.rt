//! Workers may move and share what this crate declares: each call below asks the check for it.

use crate::CalvinNode;
use crate::arrivals::{Arrival, Arrivals, Arrived};
use crate::batches::Batches;
use crate::locks::LockTable;
use crate::requests::{Queue, Request};

fn crosses<X: Send + Sync>() {}

/// Each type may be moved to another thread and shared between threads.
fn may_cross_threads() {
    crosses::<Arrival>();
    crosses::<Arrived>();
    crosses::<Arrivals>();
    crosses::<Batches>();
    crosses::<Request>();
    crosses::<Queue>();
    crosses::<LockTable>();
    crosses::<CalvinNode>();
}
