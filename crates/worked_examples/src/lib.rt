//! Small runs, computed from the definitions to the bytes of their reports: each law function says what one run reports.
#![tactic(auto)]

mod blind;
mod locks;
mod names;
mod ordered;
mod orders;
mod payments;
mod plain;
mod premises;
mod ranges;
mod rules;
mod skews;
mod stamps;
mod two_epochs;
mod words;

pub use blind::writes_that_read_nothing;
pub use locks::{
    a_wait_at_another_partition, a_waiter_is_woken, two_attempts_and_no_more,
    two_partitions_under_no_wait, two_readers_and_an_updater, two_updates_of_one_key,
};
pub use names::{names_and_draws, stock_is_refilled, the_middle_namesake};
pub use ordered::crossing_transactions_in_a_global_order;
pub use orders::{
    a_remote_line, a_rollback_over_three_partitions, an_item_ordered_twice, an_unused_item,
};
pub use payments::{
    a_balance_out_of_range, a_customer_of_bad_credit, numbers_of_a_payment, sums_at_their_ends,
};
pub use plain::{no_transaction, one_update, quoted_texts};
pub use premises::{
    a_quiet_run_meets_the_laws, each_voting_protocol_has_quiet_runs, premises_can_be_met,
};
pub use ranges::windows_apart;
pub use rules::{
    a_put_holds_its_key, a_put_over_a_waiting_read, a_reader_overtaken, an_updater_among_readers,
};
pub use skews::write_skew;
pub use stamps::{a_trimmed_version, an_old_read, an_update_too_late};
pub use two_epochs::calvin_premises_can_be_met;
pub use words::words_of_seeds;
