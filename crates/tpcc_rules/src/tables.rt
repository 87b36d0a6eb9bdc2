//! The tables of TPC-C (1.3): the keys of their rows, and their columns.
ghost use Rattle.std.specs.Prelude.{◌≡◌, ◌+◌, ◌*◌, ◌<◌, ◌^◌};
ghost use Rattle.tpcc_rules.specs.Tables as tables;

use crate::columns::{Column, fits_all};
use deneva_base::{Cell, Key};

// The numbers of the tables.
pub const WAREHOUSE: u8 = 1;

pub const DISTRICT: u8 = 2;

pub const CUSTOMER: u8 = 3;

pub const STOCK: u8 = 4;

pub const HISTORY: u8 = 5;

pub const ORDER: u8 = 6;

pub const NEW_ORDER: u8 = 7;

pub const ORDER_LINE: u8 = 8;

// The places of the cells, counted from 0.
pub const WAREHOUSE_NAME: usize = 0;

pub const WAREHOUSE_TAX: usize = 1;

pub const WAREHOUSE_YTD: usize = 2;

pub const DISTRICT_NAME: usize = 0;

pub const DISTRICT_TAX: usize = 1;

pub const DISTRICT_YTD: usize = 2;

pub const DISTRICT_NEXT: usize = 3;

pub const CUSTOMER_FIRST: usize = 0;

pub const CUSTOMER_LAST: usize = 1;

pub const CUSTOMER_CREDIT: usize = 2;

pub const CUSTOMER_DISCOUNT: usize = 3;

pub const CUSTOMER_BALANCE: usize = 4;

pub const CUSTOMER_YTD: usize = 5;

pub const CUSTOMER_COUNT: usize = 6;

pub const CUSTOMER_DATA: usize = 7;

pub const STOCK_QUANTITY: usize = 0;

pub const STOCK_YTD: usize = 1;

pub const STOCK_ORDERS: usize = 2;

pub const STOCK_REMOTES: usize = 3;

pub const STOCK_DATA: usize = 4;

/// The key of a warehouse.
pub fn warehouse_key(w: u32) -> Key
    ensures { result ≡ tables.warehouse_key w }
{
    Key {
        table: WAREHOUSE,
        a: w,
        b: 0,
        c: 0,
    }
}

/// The key of district `d` of warehouse `w`.
pub fn district_key(w: u32, d: u32) -> Key
    ensures { result ≡ tables.district_key w d }
{
    Key {
        table: DISTRICT,
        a: w,
        b: d,
        c: 0,
    }
}

/// The key of customer `c` of that district.
pub fn customer_key(w: u32, d: u32, c: u32) -> Key
    ensures { result ≡ tables.customer_key w d c }
{
    Key {
        table: CUSTOMER,
        a: w,
        b: d,
        c,
    }
}

/// The key of warehouse `w`'s stock of item `i`.
pub fn stock_key(w: u32, i: u32) -> Key
    ensures { result ≡ tables.stock_key w i }
{
    Key {
        table: STOCK,
        a: w,
        b: i,
        c: 0,
    }
}

/// The key of the history row of the payment with transaction number `id` at warehouse `w`.
pub fn history_key(w: u32, id: u32) -> Key
    ensures { result ≡ tables.history_key w id }
{
    Key {
        table: HISTORY,
        a: w,
        b: id,
        c: 0,
    }
}

/// The key of order `o` of a district.
pub fn order_key(w: u32, d: u32, o: u32) -> Key
    ensures { result ≡ tables.order_key w d o }
{
    Key {
        table: ORDER,
        a: w,
        b: d,
        c: o,
    }
}

/// The key of the same in NEW-ORDER, which has the orders that are not delivered.
pub fn new_order_key(w: u32, d: u32, o: u32) -> Key
    ensures { result ≡ tables.new_order_key w d o }
{
    Key {
        table: NEW_ORDER,
        a: w,
        b: d,
        c: o,
    }
}

/// The key of line `n`, counted from 1, of an order.
pub fn line_key(w: u32, d: u32, o: u32, n: u32) -> Key
    requires { o * 16 + n < 2 ^ 32 }
    ensures { result ≡ tables.line_key w d o n }
{
    Key {
        table: ORDER_LINE,
        a: w,
        b: d,
        c: o * 16 + n,
    }
}

const RATE: Column = Column::Between {
    low: 0,
    high: 10_000,
};

const NUMBER: Column = Column::Between {
    low: i64::MIN,
    high: i64::MAX,
};

const WAREHOUSE_COLUMNS: [Column; 3] = [Column::UpTo { most: 10 }, RATE, NUMBER];

const DISTRICT_COLUMNS: [Column; 4] = [
    Column::UpTo { most: 10 },
    RATE,
    NUMBER,
    Column::Between {
        low: 1,
        high: 200_000_000,
    },
];

const LOADED_DISTRICT_COLUMNS: [Column; 4] = [
    Column::UpTo { most: 10 },
    RATE,
    NUMBER,
    Column::Between {
        low: 1,
        high: 10_000_000,
    },
];

const CUSTOMER_COLUMNS: [Column; 8] = [
    Column::UpTo { most: 16 },
    Column::UpTo { most: 16 },
    Column::Credit,
    RATE,
    NUMBER,
    NUMBER,
    NUMBER,
    Column::UpTo { most: 500 },
];

const STOCK_COLUMNS: [Column; 5] = [
    Column::Between {
        low: 0,
        high: 9_999,
    },
    NUMBER,
    NUMBER,
    NUMBER,
    Column::UpTo { most: 50 },
];

const HISTORY_COLUMNS: [Column; 8] = [
    Column::AnyNumber,
    Column::AnyNumber,
    Column::AnyNumber,
    Column::AnyNumber,
    Column::AnyNumber,
    Column::AnyNumber,
    Column::AnyNumber,
    Column::AnyText,
];

const ORDER_COLUMNS: [Column; 4] = [
    Column::AnyNumber,
    Column::AnyNumber,
    Column::AnyNumber,
    Column::AnyNumber,
];

const ORDER_LINE_COLUMNS: [Column; 5] = [
    Column::AnyNumber,
    Column::AnyNumber,
    Column::AnyNumber,
    Column::AnyNumber,
    Column::AnyText,
];

/// The columns of a table in a run, where an order number is at most 200,000,000.
pub fn columns_of(table: u8) -> &'static [Column]
    ensures { result.now ≡ tables.columns table }
{
    match table {
        WAREHOUSE => &WAREHOUSE_COLUMNS,
        DISTRICT => &DISTRICT_COLUMNS,
        CUSTOMER => &CUSTOMER_COLUMNS,
        STOCK => &STOCK_COLUMNS,
        HISTORY => &HISTORY_COLUMNS,
        ORDER => &ORDER_COLUMNS,
        NEW_ORDER => &[],
        _ => &ORDER_LINE_COLUMNS,
    }
}

/// The columns of a table in a load, where an order number is at most 10,000,000.
pub fn loaded_columns_of(table: u8) -> &'static [Column]
    ensures { result.now ≡ tables.loaded_columns table }
{
    if table == DISTRICT {
        &LOADED_DISTRICT_COLUMNS
    } else {
        columns_of(table)
    }
}

fn is_table(table: u8) -> bool
    ensures { result ≡ tables.is_table table }
{
    1 <= table && table <= 8
}

/// Whether a row has the cells of its key's table, with values in their ranges.
pub fn is_table_row(key: Key, row: &[Cell]) -> bool
    ensures { result ≡ tables.is_table_row key row.now }
{
    is_table(key.table) && fits_all(columns_of(key.table), row)
}

/// Whether a row may stand in a load.
pub fn is_loaded_row(key: Key, row: &[Cell]) -> bool
    ensures { result ≡ tables.is_loaded_row key row.now }
{
    is_table(key.table) && fits_all(loaded_columns_of(key.table), row)
}
