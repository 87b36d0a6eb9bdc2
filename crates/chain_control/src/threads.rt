//! Workers may move what this crate declares: each call below asks the check for it.

use crate::Chains;

fn crosses<X: Send + Sync>() {}

/// Each type may be moved to another thread and shared between threads.
fn may_cross_threads() {
    crosses::<Chains<0>>();
    crosses::<Chains<4>>();
}
