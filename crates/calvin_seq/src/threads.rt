//! Workers may move and share what this crate declares: each call below asks the check for it.

use crate::Sequencer;

fn crosses<X: Send + Sync>() {}

/// It may be moved to another thread and shared between threads.
fn may_cross_threads() {
    crosses::<Sequencer>();
}
