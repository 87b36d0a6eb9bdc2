//! Each public call once, on its happy path, and which workloads are valid.

use super::*;
use deneva_base::{
    Access, ByteList, Cell, CellList, Copied, Key, Keyed, Mode, NoMemory, Row, RowList, TxnId,
};
use std::alloc::Global;
use std::test::Fail;

fn text_of(alloc: Global, text: &[u8]) -> Result<Cell, NoMemory> {
    let bytes = ByteList::from_bytes(alloc, text)?;
    Ok(Cell::Text(bytes))
}

/// A row of so many cells, each of this text.
fn row_of(alloc: Global, width: u8, text: &[u8]) -> Result<Row, NoMemory> {
    let mut cells = CellList::new(alloc);
    for _ in 0..width {
        cells.push(text_of(alloc, text)?)?;
    }
    Row::of(alloc, cells)
}

fn keyed_of(alloc: Global, number: u32, width: u8, text: &[u8]) -> Result<Keyed, NoMemory> {
    Ok(Keyed {
        key: ycsb_key_of(number),
        row: row_of(alloc, width, text)?,
    })
}

/// A load of rows with these keys.
fn load_of(
    alloc: Global,
    fields: u8,
    keys: &[u32],
    width: u8,
    text: &[u8],
) -> Result<Load, NoMemory> {
    let mut rows = RowList::new(alloc);
    for key in keys {
        rows.push(keyed_of(alloc, *key, width, text)?)?;
    }
    Ok(Load {
        kind: WorkKind::Ycsb,
        fields,
        rows,
        items: ItemList::new(alloc),
    })
}

/// Steps that read rows with these keys.
fn steps_of(alloc: Global, keys: &[u32]) -> Result<StepList, NoMemory> {
    let mut steps = StepList::new(alloc);
    for key in keys {
        steps.push(YcsbStep {
            key: *key,
            act: YcsbAct::Read,
        })?;
    }
    Ok(steps)
}

/// A workload of one transaction.
fn work_of(alloc: Global, load: Load, steps: StepList) -> Result<Workload, NoMemory> {
    let mut programs = ProgramList::new(alloc);
    programs.push(Program::Ycsb(steps))?;
    Ok(Workload { load, programs })
}

/// A step that replaces a field of the row of key 2.
fn update(alloc: Global, field: u8, text: &[u8]) -> Result<YcsbStep, NoMemory> {
    let text = ByteList::from_bytes(alloc, text)?;
    Ok(YcsbStep {
        key: 2,
        act: YcsbAct::Update(YcsbPut { field, text }),
    })
}

/// A step that replaces the row of key 3.
fn put(alloc: Global, width: u8, text: &[u8]) -> Result<YcsbStep, NoMemory> {
    Ok(YcsbStep {
        key: 3,
        act: YcsbAct::Put(row_of(alloc, width, text)?),
    })
}

/// A workload over three rows of two fields, whose transaction reads the row of key 1 and then takes this step.
fn work_with(alloc: Global, step: YcsbStep) -> Result<Workload, NoMemory> {
    let mut steps = steps_of(alloc, &[1])?;
    steps.push(step)?;
    work_of(alloc, load_of(alloc, 2, &[1, 2, 3], 2, b"a")?, steps)
}

/// A transaction that reads the row of key 1, replaces the second field of the row of key 2, and replaces the row of
/// key 3.
fn three_steps(alloc: Global) -> Result<Program, NoMemory> {
    let mut steps = steps_of(alloc, &[1])?;
    steps.push(update(alloc, 1, b"z")?)?;
    steps.push(put(alloc, 2, b"x")?)?;
    Ok(Program::Ycsb(steps))
}

#[test]
fn accesses_follow_the_steps(rt: HostRuntime) -> Result<(), Fail> {
    let load = load_of(rt.alloc(), 2, &[1, 2, 3], 2, b"a")?;
    let program = three_steps(rt.alloc())?;
    let accesses = accesses_of(rt.alloc(), &load, &program.copied(rt.alloc())?)?;
    let wanted = [
        Access {
            key: ycsb_key_of(1),
            mode: Mode::Read,
        },
        Access {
            key: ycsb_key_of(2),
            mode: Mode::Update,
        },
        Access {
            key: ycsb_key_of(3),
            mode: Mode::Put,
        },
    ];
    assert_eq!(rt; accesses.as_slice(), wanted.as_slice());
    Ok(())
}

#[test]
fn an_effect_writes_what_changes(rt: HostRuntime) -> Result<(), Fail> {
    let alloc = rt.alloc();
    let load = load_of(alloc, 2, &[1, 2, 3], 2, b"a")?;
    let effect = effect_of(alloc, &load, TxnId(1), &three_steps(alloc)?, &load.rows)?;
    let mut replaced = CellList::new(alloc);
    replaced.push(text_of(alloc, b"a")?)?;
    replaced.push(text_of(alloc, b"z")?)?;
    let mut writes = RowList::new(alloc);
    writes.push(Keyed {
        key: ycsb_key_of(2),
        row: Row::of(alloc, replaced)?,
    })?;
    writes.push(keyed_of(alloc, 3, 2, b"x")?)?;
    assert_eq!(rt; effect.verdict, Verdict::Commit);
    assert_eq!(rt; effect.writes, writes);
    assert!(rt; effect.appends.is_empty());
    assert_eq!(rt; effect.answer, 0);
    Ok(())
}

#[test]
fn participants_rise(rt: HostRuntime) -> Result<(), Fail> {
    let alloc = rt.alloc();
    let load = load_of(alloc, 1, &[3, 5, 7], 1, b"a")?;
    let program = Program::Ycsb(steps_of(alloc, &[7, 5, 3])?);
    let accesses = accesses_of(alloc, &load, &program)?;
    let parts = partitions_of(alloc, 4, accesses.as_slice())?;
    assert_eq!(rt; parts.as_slice(), [1, 3].as_slice());
    Ok(())
}

#[test]
fn loads_of_a_file_are_valid(rt: HostRuntime) -> Result<(), Fail> {
    let alloc = rt.alloc();
    for (name, fields, keys, width, text, wanted) in [
        ("one field", 1, [1, 2, 3], 1, b"a".as_slice(), true),
        ("ten fields", 10, [1, 2, 3], 10, b"".as_slice(), true),
        ("no field", 0, [1, 2, 3], 0, b"a".as_slice(), false),
        ("eleven fields", 11, [1, 2, 3], 11, b"a".as_slice(), false),
        ("a missing cell", 2, [1, 2, 3], 1, b"a".as_slice(), false),
        ("100 bytes", 1, [1, 2, 3], 1, [b'a'; 100].as_slice(), true),
        ("101 bytes", 1, [1, 2, 3], 1, [b'a'; 101].as_slice(), false),
        (
            "commas, quotes, line ends",
            1,
            [1, 2, 3],
            1,
            b"a,\"b\"\r\n".as_slice(),
            true,
        ),
        ("falling keys", 1, [3, 2, 1], 1, b"a".as_slice(), true),
        ("one key twice", 1, [1, 1, 2], 1, b"a".as_slice(), false),
        (
            "one key twice, apart",
            1,
            [1, 2, 1],
            1,
            b"a".as_slice(),
            false,
        ),
    ] {
        let load = load_of(alloc, fields, keys.as_slice(), width, text)?;
        let work = work_of(alloc, load, steps_of(alloc, &[1])?)?;
        assert_eq!(rt; valid(&work), wanted, "at {name}");
    }
    Ok(())
}

#[test]
fn rows_of_a_file_are_valid(rt: HostRuntime) -> Result<(), Fail> {
    let alloc = rt.alloc();
    for (b, cell, wanted) in [
        (0, text_of(alloc, b"a")?, true),
        (1, text_of(alloc, b"a")?, false),
        (0, Cell::Num(5), false),
    ] {
        let mut load = load_of(alloc, 1, &[1], 1, b"a")?;
        let mut cells = CellList::new(alloc);
        cells.push(cell)?;
        let row = Row::of(alloc, cells)?;
        let key = Key {
            table: 0,
            a: 2,
            b,
            c: 0,
        };
        load.rows.push(Keyed { key, row })?;
        let work = work_of(alloc, load, steps_of(alloc, &[1])?)?;
        assert_eq!(rt; valid(&work), wanted, "at b = {b}");
    }
    Ok(())
}

#[test]
fn steps_access_loaded_keys_once(rt: HostRuntime) -> Result<(), Fail> {
    let alloc = rt.alloc();
    let keys = [17, 1, 2, 3, 4, 5, 6, 7, 8, 9, 10, 11, 12, 13, 14, 15, 16];
    for (name, accessed, wanted) in [
        ("one step", [2].as_slice(), true),
        ("16 steps", &keys[1..], true),
        ("17 steps", &keys, false),
        ("no step", &keys[17..], false),
        ("an absent key", [1, 18].as_slice(), false),
        ("a key twice", [1, 2, 1].as_slice(), false),
    ] {
        for loaded in [
            [1, 2, 3, 4, 5, 6, 7, 8, 9, 10, 11, 12, 13, 14, 15, 16, 17],
            keys,
        ] {
            let load = load_of(alloc, 1, loaded.as_slice(), 1, b"a")?;
            let work = work_of(alloc, load, steps_of(alloc, accessed)?)?;
            assert_eq!(rt; valid(&work), wanted, "at {name}");
        }
    }
    Ok(())
}

#[test]
fn steps_write_what_fits(rt: HostRuntime) -> Result<(), Fail> {
    let alloc = rt.alloc();
    for (step, wanted) in [
        (update(alloc, 1, b"z")?, true),
        (update(alloc, 2, b"z")?, false),
        (update(alloc, 1, b"z,\"\r\n")?, true),
        (update(alloc, 1, [b'z'; 101].as_slice())?, false),
        (put(alloc, 2, b"x")?, true),
        (put(alloc, 1, b"x")?, false),
    ] {
        let work = work_with(alloc, step)?;
        assert_eq!(rt; valid(&work), wanted, "at {work:?}");
    }
    Ok(())
}
