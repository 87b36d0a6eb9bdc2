//! What nodes say to each other, what a run of them is, and what came of it: messages, histories and outcomes, the traits
//! of a node, and the definitions that every theorem on runs stands on.
#![tactic(auto)]

mod ballots;
mod loading;
mod messages;
mod openings;
mod ordering;
mod outbox;
mod outcome_laws;
mod outcomes;
mod role;
mod schedules;
mod server;
mod settings;
mod telling;
#[cfg(test)]
mod tests;
mod threads;
mod transactions;

pub use ballots::{Ballot, greatest_lo, least_hi};
use deneva_base::{Items, Keyed, Shared};
pub use messages::{Entry, Mail, Msg};
pub use openings::opening;
pub use ordering::{BATCH, ordered_number};
pub use outbox::Outbox;
pub use outcome_laws::outcomes_are_in_order;
pub use outcomes::{AbortLine, Decided, Giveup, Outcome, RunKind};
pub use role::Role;
pub use schedules::Schedule;
pub use server::{Handles, Letter, Server};
pub use settings::{calvin_settings_are_valid, settings_are_valid};

pub type MailList = Items<Mail>;

/// Rows that go to several nodes, which share them.
pub type SentRows = Shared<Keyed>;

/// The entries of a run, in the order of their places.
pub type History = Items<Entry>;

pub type DecidedList = Items<Decided>;

pub type GiveupList = Items<Giveup>;

pub type AbortList = Items<AbortLine>;
