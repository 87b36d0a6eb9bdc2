//! Which rows a table can have.
use crate::{
    district_key, is_loaded_row, is_table_row, line_key, new_order_key, order_key, warehouse_key,
};
use deneva_base::{ByteList, Cell, CellList, Key, NoMemory};
use std::alloc::Global;
use std::test::Fail;

fn district(alloc: Global, next: i64) -> Result<CellList, NoMemory> {
    let cells = vec![in alloc;
        Cell::Text(ByteList::from_bytes(alloc, b"north")?),
        Cell::Num(0),
        Cell::Num(-5),
        Cell::Num(next),
    ]?;
    Ok(CellList::of(cells))
}

#[test]
fn rows_have_the_columns_of_their_tables(rt: HostRuntime) -> Result<(), Fail> {
    let alloc = rt.alloc();
    let loaded = district(alloc, 10_000_000)?;
    assert!(rt; is_loaded_row(district_key(1, 2), loaded.as_slice()));
    let later = district(alloc, 10_000_001)?;
    assert!(rt; !is_loaded_row(district_key(1, 2), later.as_slice()));
    assert!(rt; is_table_row(district_key(1, 2), later.as_slice()));
    assert!(rt; !is_table_row(warehouse_key(1), later.as_slice()));
    assert!(rt; is_table_row(new_order_key(1, 2, 3), &[]));
    assert!(rt; !is_table_row(order_key(1, 2, 3), &[]));
    Ok(())
}

#[test]
fn tables_are_one_to_eight(rt: HostRuntime) -> Result<(), Fail> {
    let alloc = rt.alloc();
    let line = CellList::of(vec![in alloc;
        Cell::Num(1),
        Cell::Num(1),
        Cell::Num(5),
        Cell::Num(500),
        Cell::Text(ByteList::from_bytes(alloc, b"G")?),
    ]?);
    let key = line_key(1, 2, 3, 4);
    assert_eq!(rt; key.c, 52);
    assert!(rt; is_table_row(key, line.as_slice()));
    assert!(rt; !is_table_row(Key { table: 9, ..key }, line.as_slice()));
    Ok(())
}
