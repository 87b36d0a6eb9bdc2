//! Workers may move what this crate declares: the call below asks the check for it.

use crate::Accesses;

fn crosses<X: Send + Sync>() {}

/// The type may be moved to another thread and shared between threads.
fn may_cross_threads() {
    crosses::<Accesses>();
}
