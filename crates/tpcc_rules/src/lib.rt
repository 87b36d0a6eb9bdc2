//! The rules of TPC-C: the tables, what Payment and NewOrder make of the rows that they read, and the names of customers.
#![tactic(auto)]

mod cells;
mod columns;
mod effects;
mod items;
#[cfg(test)]
mod name_tests;
mod names;
#[cfg(test)]
mod order_tests;
mod orders;
#[cfg(test)]
mod payment_tests;
mod payments;
mod programs;
mod read_rows;
mod stocks;
#[cfg(test)]
mod table_tests;
mod tables;

pub use cells::{number_at, raised_copy, raised_row, text_at};
pub use columns::{Column, fits_all};
use deneva_base::Items;
pub use effects::{Effect, Reason, Verdict};
pub use items::ItemList;
pub use names::{Namesakes, by_last_name, last_name, nurand};
pub use orders::new_order_effect;
pub use payments::payment_effect;
pub use programs::{Item, Line, NewOrder, Payment};
pub use read_rows::{ReadRow, cells_of, row_among, rows_lying};
pub use stocks::stock_keys;
pub use tables::{
    columns_of, customer_key, district_key, history_key, is_loaded_row, is_table_row, line_key,
    loaded_columns_of, new_order_key, order_key, stock_key, warehouse_key,
};

/// The lines of a new order.
pub type LineList = Items<Line>;
