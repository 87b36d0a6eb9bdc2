//! Laws of every run of Calvin. Each function does nothing, and its contract is the laws.
#![tactic(auto)]

mod runs;
mod schedulers;

pub use runs::{
    calvin_deliveries_are_runs, calvin_mails_fit, calvin_quiet_runs_are_serial,
    calvin_runs_are_right, calvin_runs_are_short, global_order_is_serial, order_is_global,
    ready_is_the_rule, rows_are_serial,
};
pub use schedulers::{active_lists_are_kept, calvin_rows_are_greatest, news_are_local};
