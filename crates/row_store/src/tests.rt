//! Each public call once, on its happy path.
ghost use Rattle.std.specs.Prelude.{◌≡◌};

use super::*;
use deneva_base::{ByteList, Cell, CellList, Key, Keyed, Number, Row, RowList, TxnId};
use std::alloc::Global;
use std::test::Fail;

fn key(a: u32) -> Key
    ensures { result ≡ record { table = 0; a = a; b = 0; c = 0 } }
{
    Key {
        table: 0,
        a,
        b: 0,
        c: 0,
    }
}

fn row(alloc: Global, text: &[u8]) -> Result<Row, Fail> {
    let mut cells = CellList::new(alloc);
    cells.push(Cell::Text(ByteList::from_bytes(alloc, text)?))?;
    Ok(Row::of(alloc, cells)?)
}

fn number(n: u64) -> Number {
    Number { n, id: TxnId(1) }
}

#[test]
fn a_store_keeps_the_newest_rows(rt: HostRuntime) -> Result<(), Fail> {
    let alloc = rt.alloc();
    let mut rows = RowList::new(alloc);
    let old = row(alloc, b"one")?;
    rows.push(Keyed {
        key: key(1),
        row: old,
    })?;
    let old = row(alloc, b"three")?;
    rows.push(Keyed {
        key: key(3),
        row: old,
    })?;
    let mut store = Store::begin(alloc, rows)?;
    assert!(rt; store.get(key(1)).is_some());
    store.put(key(1), row(alloc, b"put")?);
    assert!(rt; store.get(key(3)).is_some());
    store.put_at(key(3), number(5), row(alloc, b"five")?);
    assert!(rt; store.get(key(3)).is_some());
    store.put_at(key(3), number(4), row(alloc, b"four")?);
    store.reserve(2)?;
    store.append(key(2), number(7), row(alloc, b"seven")?);
    store.append(key(3), number(5), row(alloc, b"again")?);
    assert_eq!(rt; store.get(key(3)), Some(&row(alloc, b"five")?));
    assert!(rt; store.get(key(4)).is_none());
    let rows = store.rows_in_order()?;
    let expected: [(u32, &[u8]); 3] = [(1, b"put"), (2, b"seven"), (3, b"five")];
    assert_eq!(rt; rows.len(), expected.len());
    for (found, (a, text)) in rows.as_slice().iter().zip(expected) {
        assert_eq!(rt; found.key, key(a));
        assert_eq!(rt; found.row, row(alloc, text)?);
    }
    Ok(())
}
