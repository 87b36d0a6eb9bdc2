//! Workers may move and share what this crate declares: each call below asks the check for it.

use crate::flight::Flight;
use crate::picker::Picker;
use crate::{Finished, World};
use server_core::{Mail, Server};

fn crosses<X: Send + Sync>() {}

fn moves<X: Send>() {}

/// A world may be moved to another thread, as its nodes may.
fn world_may_move<'w, S: Server<'w> + Send>() {
    moves::<World<'w, S>>();
}

/// Each type may be moved to another thread and shared between threads.
fn may_cross_threads() {
    crosses::<Finished>();
    crosses::<Flight<Mail>>();
    crosses::<Picker>();
}
