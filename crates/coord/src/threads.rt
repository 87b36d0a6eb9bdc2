//! Workers may move what this crate declares: each call below asks the check for it.

use crate::Coord;
use crate::attempts::Attempting;
use crate::ballots::Decision;
use crate::open::OpenTxns;
use crate::replies::Grant;
use crate::saying::Ending;

fn crosses<X: Send + Sync>() {}

/// Each type may be moved to another thread and shared between threads.
fn may_cross_threads() {
    crosses::<Decision>();
    crosses::<Ending>();
    crosses::<Grant>();
    crosses::<Attempting>();
    crosses::<OpenTxns>();
    crosses::<Coord>();
}
