//! Workers may move and share what this crate declares: each call below asks the check for it.

use crate::{
    AbortLine, Ballot, Decided, Entry, Giveup, Mail, Msg, Outbox, Outcome, Role, RunKind, Schedule,
};

fn crosses<X: Send + Sync>() {}

/// Each type may be moved to another thread and shared between threads.
fn may_cross_threads() {
    crosses::<AbortLine>();
    crosses::<Ballot>();
    crosses::<Decided>();
    crosses::<Entry>();
    crosses::<Giveup>();
    crosses::<Mail>();
    crosses::<Msg>();
    crosses::<Outbox>();
    crosses::<Outcome>();
    crosses::<Role>();
    crosses::<RunKind>();
    crosses::<Schedule>();
}
