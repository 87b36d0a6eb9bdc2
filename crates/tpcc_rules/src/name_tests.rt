//! Names and draws as TPC-C has them.

use super::*;
use deneva_base::{ByteList, Cell, CellList, Key, Keyed, NoMemory, Row};
use std::alloc::Global;
use std::test::Fail;

fn customer(
    alloc: Global,
    d: u32,
    number: u32,
    first: &[u8],
    last: &[u8],
) -> Result<Keyed, NoMemory> {
    let mut cells = CellList::new(alloc);
    cells.push(Cell::Text(ByteList::from_bytes(alloc, first)?))?;
    cells.push(Cell::Text(ByteList::from_bytes(alloc, last)?))?;
    Ok(Keyed {
        key: Key {
            table: 3,
            a: 1,
            b: d,
            c: number,
        },
        row: Row::of(alloc, cells)?,
    })
}

#[test]
fn names_have_a_syllable_for_each_digit(rt: HostRuntime) -> Result<(), Fail> {
    let alloc = rt.alloc();
    assert_eq!(rt; last_name(alloc, 0)?.as_slice(), b"BARBARBAR".as_slice());
    assert_eq!(rt;
        last_name(alloc, 371)?.as_slice(),
        b"PRICALLYOUGHT".as_slice()
    );
    assert_eq!(rt;
        last_name(alloc, 999)?.as_slice(),
        b"EINGEINGEING".as_slice()
    );
    Ok(())
}

#[test]
fn draws_are_not_uniform(rt: HostRuntime) -> Result<(), Fail> {
    assert_eq!(rt; nurand(255, 0, 999, 100, 100, 500), 600);
    assert_eq!(rt; nurand(255, 0, 999, 100, 255, 999), 123);
    assert_eq!(rt; nurand(1023, 1, 3000, 0, 0, 7), 8);
    Ok(())
}

#[test]
fn a_name_is_that_of_the_middle_customer(rt: HostRuntime) -> Result<(), Fail> {
    let alloc = rt.alloc();
    let rows = [
        customer(alloc, 1, 1, b"Zoe", b"BAR")?,
        customer(alloc, 1, 2, b"Bo", b"OUGHT")?,
        customer(alloc, 1, 3, b"Al", b"BAR")?,
        customer(alloc, 1, 4, b"Mia", b"BAR")?,
        customer(alloc, 1, 5, b"Ann", b"OUGHT")?,
        customer(alloc, 2, 7, b"Eve", b"BAR")?,
        customer(alloc, 2, 6, b"Eve", b"BAR")?,
        customer(alloc, 2, 8, b"Eve", b"ABLE")?,
    ];
    let namesakes = Namesakes::of(alloc, &rows)?;
    assert_eq!(rt; namesakes.middle(1, 1, b"BAR"), Some(4));
    assert_eq!(rt; namesakes.middle(1, 1, b"OUGHT"), Some(5));
    assert_eq!(rt; namesakes.middle(1, 2, b"BAR"), Some(6));
    assert_eq!(rt; namesakes.middle(1, 2, b"OUGHT"), None);
    assert_eq!(rt; by_last_name(alloc, &rows, 1, 2, b"ABLE")?, Some(8));
    Ok(())
}
