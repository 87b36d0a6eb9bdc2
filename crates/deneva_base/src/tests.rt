//! Each public call once, on its happy path.

use super::*;
use std::test::Fail;

fn ycsb(a: u32) -> Key {
    Key {
        table: 0,
        a,
        b: 0,
        c: 0,
    }
}

#[test]
fn lists_hold_their_items(rt: HostRuntime) -> Result<(), Fail> {
    let mut list = CountList::new(rt.alloc());
    assert!(rt; list.is_empty());
    for item in [7, 8, 9] {
        list.push(item)?;
    }
    assert!(rt; !list.is_empty());
    assert_eq!(rt; list.len(), 3);
    assert_eq!(rt; *list.get(1), 8);
    let copy = list.copy(rt.alloc())?;
    assert_eq!(rt; copy, list);
    assert_eq!(rt; copy.into_vec().as_slice(), [7, 8, 9].as_slice());
    assert_ne!(rt; CountList::of([7, 8].to_vec(rt.alloc())?), list);
    Ok(())
}

#[test]
fn byte_lists_grow(rt: HostRuntime) -> Result<(), Fail> {
    let mut bytes = ByteList::from_bytes(rt.alloc(), b"ab")?;
    bytes.extend(b"cd")?;
    assert_eq!(rt; bytes.as_slice(), b"abcd".as_slice());
    Ok(())
}

#[test]
fn copies_are_equal(rt: HostRuntime) -> Result<(), Fail> {
    let mut cells = CellList::new(rt.alloc());
    cells.push(Cell::Num(-5))?;
    cells.push(Cell::Text(ByteList::from_bytes(rt.alloc(), b"x")?))?;
    let row = Row::of(rt.alloc(), cells)?;
    assert_eq!(rt; Row::empty(rt.alloc())?.len(), 0);
    let keyed = Keyed { key: ycsb(3), row };
    let copy = keyed.copied(rt.alloc())?;
    assert_eq!(rt; copy.key, ycsb(3));
    assert_eq!(rt; copy.row.len(), 2);
    assert_eq!(rt; copy.row.as_slice()[0], Cell::Num(-5));
    assert_eq!(rt; copy, keyed);
    let access = Access {
        key: ycsb(4),
        mode: Mode::Update,
    };
    assert_eq!(rt; access.copied(rt.alloc())?, access);
    assert_eq!(rt; TxnId(6).copied(rt.alloc())?, TxnId(6));
    Ok(())
}

#[test]
fn modes_read_and_write(rt: HostRuntime) {
    for (mode, reads, writes) in [
        (Mode::Read, true, false),
        (Mode::Update, true, true),
        (Mode::Put, false, true),
    ] {
        assert_eq!(rt; mode.is_reading(), reads, "at {mode:?}");
        assert_eq!(rt; mode.is_writing(), writes, "at {mode:?}");
    }
}

#[test]
fn keys_lie_in_partitions(rt: HostRuntime) {
    for (table, a, parts, part) in [(0, 5, 2, 1), (1, 1, 16, 0), (1, 17, 16, 0), (4, 20, 16, 3)] {
        let key = Key {
            table,
            a,
            b: 7,
            c: 9,
        };
        assert_eq!(rt; partition_of(key, parts), part, "at {key:?}");
    }
}
