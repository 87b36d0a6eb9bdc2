//! Workers may move and share what this crate declares: each call below asks the check for it.

use crate::{
    Access, Answer, Attempt, Bound, Cause, Cell, Config, Items, Key, Keyed, Mode, NoMemory, Number,
    Protocol, PushNoMemory, Shared, TxnId, Vote, Wake,
};

fn crosses<X: Send + Sync>() {}

fn cross<X: Send + Sync>() {
    crosses::<Items<X>>();
    crosses::<Shared<X>>();
}

/// Each type may be moved to another thread and shared between threads.
fn may_cross_threads() {
    crosses::<Access>();
    crosses::<Answer>();
    crosses::<Attempt>();
    crosses::<Bound>();
    crosses::<Cause>();
    crosses::<Cell>();
    crosses::<Config>();
    crosses::<Key>();
    crosses::<Keyed>();
    crosses::<Mode>();
    crosses::<NoMemory>();
    crosses::<Number>();
    crosses::<Protocol>();
    crosses::<PushNoMemory<Keyed>>();
    crosses::<TxnId>();
    crosses::<Vote>();
    crosses::<Wake>();
    cross::<Keyed>();
}
