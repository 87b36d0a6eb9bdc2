//! The transactions of TPC-C over two warehouses, and which of their workloads are valid.

use super::*;
use deneva_base::{
    Access, ByteList, Cell, CellList, Key, Keyed, Mode, NoMemory, Row, RowList, TxnId,
};
use std::alloc::Global;
use std::test::Fail;
use tpcc_rules::{customer_key, district_key, stock_key, warehouse_key};

const LINE: Line = Line {
    item: 1,
    supplier: 2,
    quantity: 5,
};

/// No item has this line's number, and no warehouse its supplier's.
const UNUSED: Line = Line {
    item: 9,
    supplier: 77,
    quantity: 1,
};

/// The item of this line is loaded in some loads, and its stock in none.
const MISSING: Line = Line {
    item: 2,
    supplier: 1,
    quantity: 1,
};

const PAYMENT: Payment = Payment {
    w: 1,
    d: 1,
    cw: 2,
    cd: 1,
    c: 3,
    amount: 500,
};

fn push_texts(cells: &mut CellList, alloc: Global, texts: &[&[u8]]) -> Result<(), NoMemory> {
    for text in texts {
        let bytes = ByteList::from_bytes(alloc, text)?;
        cells.push(Cell::Text(bytes))?;
    }
    Ok(())
}

/// A row of texts, numbers and texts.
fn keyed_of(
    alloc: Global,
    key: Key,
    before: &[&[u8]],
    numbers: &[i64],
    after: &[&[u8]],
) -> Result<Keyed, NoMemory> {
    let mut cells = CellList::new(alloc);
    push_texts(&mut cells, alloc, before)?;
    for number in numbers {
        cells.push(Cell::Num(*number))?;
    }
    push_texts(&mut cells, alloc, after)?;
    Ok(Keyed {
        key,
        row: Row::of(alloc, cells)?,
    })
}

/// A warehouse with its first district, whose next order has this number, and the district's customer 3.
fn push_place(rows: &mut RowList, alloc: Global, w: u32, next: i64) -> Result<(), NoMemory> {
    let name: &[u8] = b"N";
    let credit: &[u8] = b"GC";
    let customer = customer_key(w, 1, 3);
    rows.push(keyed_of(alloc, warehouse_key(w), &[name], &[0, 0], &[])?)?;
    rows.push(keyed_of(alloc, district_key(w, 1), &[name], &[0, 0, next], &[])?)?;
    rows.push(keyed_of(
        alloc,
        customer,
        &[name, name, credit],
        &[0, 0, 0, 0],
        &[name],
    )?)?;
    Ok(())
}

/// Two warehouses, items with these numbers, and item 1's stock at the second warehouse.
fn load_of(alloc: Global, next: i64, numbers: &[u32]) -> Result<Load, NoMemory> {
    let mut rows = RowList::new(alloc);
    push_place(&mut rows, alloc, 1, next)?;
    push_place(&mut rows, alloc, 2, 1)?;
    rows.push(keyed_of(
        alloc,
        stock_key(2, 1),
        &[],
        &[20, 0, 0, 0],
        &[b"s".as_slice()],
    )?)?;
    let mut items = ItemList::new(alloc);
    for number in numbers {
        items.push(Item {
            number: *number,
            price: 250,
            original: false,
        })?;
    }
    Ok(Load {
        kind: WorkKind::Tpcc,
        fields: 0,
        rows,
        items,
    })
}

fn order_of(alloc: Global, c: u32, lines: &[Line]) -> Result<Program, NoMemory> {
    let lines = LineList::copy_of(alloc, lines)?;
    Ok(Program::NewOrder(NewOrder {
        w: 1,
        d: 1,
        c,
        lines,
    }))
}

fn read(key: Key) -> Access {
    Access {
        key,
        mode: Mode::Read,
    }
}

fn update(key: Key) -> Access {
    Access {
        key,
        mode: Mode::Update,
    }
}

#[test]
fn a_payment_updates_three_rows(rt: HostRuntime) -> Result<(), Fail> {
    let alloc = rt.alloc();
    let load = load_of(alloc, 7, &[1])?;
    let program = Program::Payment(PAYMENT);
    let accesses = accesses_of(alloc, &load, &program)?;
    let wanted = [
        update(warehouse_key(1)),
        update(district_key(1, 1)),
        update(customer_key(2, 1, 3)),
    ];
    assert_eq!(rt; accesses.as_slice(), wanted.as_slice());
    let effect = effect_of(alloc, &load, TxnId(4), &program, &load.rows)?;
    assert_eq!(rt; effect.verdict, Verdict::Commit);
    assert_eq!(rt; effect.answer, -500);
    assert_eq!(rt; effect.writes.len(), 3);
    assert_eq!(rt; effect.appends.len(), 1);
    Ok(())
}

#[test]
fn an_order_asks_for_each_stock_once(rt: HostRuntime) -> Result<(), Fail> {
    let alloc = rt.alloc();
    let load = load_of(alloc, 7, &[1])?;
    let program = order_of(alloc, 3, &[LINE, UNUSED, LINE])?;
    let accesses = accesses_of(alloc, &load, &program)?;
    let wanted = [
        read(warehouse_key(1)),
        update(district_key(1, 1)),
        read(customer_key(1, 1, 3)),
        update(stock_key(2, 1)),
    ];
    assert_eq!(rt; accesses.as_slice(), wanted.as_slice());
    let effect = effect_of(alloc, &load, TxnId(4), &program, &load.rows)?;
    assert_eq!(rt;
        effect.verdict,
        Verdict::Rollback(Reason::UnusedItem { item: 9 })
    );
    assert!(rt; effect.writes.is_empty());
    Ok(())
}

#[test]
fn a_partition_makes_its_rows(rt: HostRuntime) -> Result<(), Fail> {
    let alloc = rt.alloc();
    let load = load_of(alloc, 7, &[1])?;
    let program = Program::Payment(PAYMENT);
    let mut rows = Vec::new(alloc);
    for keyed in load.rows.as_slice() {
        rows.push(ReadRow {
            key: keyed.key,
            row: Some(&keyed.row),
        })?;
    }
    for (part, writes, appends) in [(0, 2, 1), (1, 1, 0)] {
        let made = Partition { part, parts: 2 };
        let effect = effect_within(alloc, &load, TxnId(4), &program, &rows, Some(made))?;
        assert_eq!(rt; effect.writes.len(), writes, "at {part}");
        assert_eq!(rt; effect.appends.len(), appends, "at {part}");
    }
    Ok(())
}

#[test]
fn loads_and_orders_of_a_file_are_valid(rt: HostRuntime) -> Result<(), Fail> {
    let alloc = rt.alloc();
    let fifteen = [LINE; 15];
    let sixteen = [LINE; 16];
    for (name, next, numbers, customer, lines, wanted) in [
        ("one line", 7, [1, 2], 3, [LINE].as_slice(), true),
        (
            "the greatest NEXT",
            10_000_000,
            [1, 2],
            3,
            [LINE].as_slice(),
            true,
        ),
        (
            "a NEXT past it",
            10_000_001,
            [1, 2],
            3,
            [LINE].as_slice(),
            false,
        ),
        ("an item twice", 7, [1, 1], 3, [LINE].as_slice(), false),
        ("items that fall", 7, [2, 1], 3, [LINE].as_slice(), true),
        ("item 0", 7, [0, 1], 3, [LINE].as_slice(), false),
        ("an absent customer", 7, [1, 2], 4, [LINE].as_slice(), false),
        ("no line", 7, [1, 2], 3, [].as_slice(), false),
        ("15 lines", 7, [1, 2], 3, fifteen.as_slice(), true),
        ("16 lines", 7, [1, 2], 3, sixteen.as_slice(), false),
        (
            "an unused item",
            7,
            [1, 2],
            3,
            [LINE, UNUSED].as_slice(),
            true,
        ),
        ("a missing stock", 7, [1, 2], 3, [MISSING].as_slice(), false),
        (
            "an unused item's stock",
            7,
            [1, 3],
            3,
            [MISSING].as_slice(),
            true,
        ),
    ] {
        let mut programs = ProgramList::new(alloc);
        programs.push(Program::Payment(PAYMENT))?;
        programs.push(order_of(alloc, customer, lines)?)?;
        let load = load_of(alloc, next, numbers.as_slice())?;
        let work = Workload { load, programs };
        assert_eq!(rt; valid(&work), wanted, "at {name}");
    }
    Ok(())
}

#[test]
fn a_transaction_lives_at_its_warehouse(rt: HostRuntime) -> Result<(), Fail> {
    let alloc = rt.alloc();
    let mut programs = ProgramList::new(alloc);
    programs.push(Program::Payment(PAYMENT))?;
    programs.push(order_of(alloc, 3, &[LINE])?)?;
    let load = load_of(alloc, 7, &[1])?;
    let work = Workload { load, programs };
    assert!(rt; valid(&work));
    for program in work.programs.as_slice() {
        assert_eq!(rt; home(&work.load, program, 2), 0);
    }
    Ok(())
}
