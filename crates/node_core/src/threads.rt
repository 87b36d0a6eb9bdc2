//! Workers may move and share what this crate declares: each call below asks the check for it.

use crate::Node;
use control_core::Chosen;

fn crosses<X: Send + Sync>() {}

/// A node may be moved to another thread and shared between threads where its control may.
fn may_cross_threads<C: Chosen + Sync>() {
    crosses::<Node<'static, C>>();
}
