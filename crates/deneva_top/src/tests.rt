//! Whole calls over memory: words and bytes in, status and bytes out. One call for each kind of answer; the worked runs under
//! `examples` have the others.
mod words;

use crate::serial_model::run_serial;
use crate::{Ended, deneva, parse_workload};
use deneva_base::{ByteList, CountList, IdList, NoMemory};
use deneva_io::{MemSink, MemSource, SureSink, SureSource};
use std::alloc::Global;
use std::test::Fail;

const TWO_UPDATES: &str = "deneva,1,ycsb,1\nrow,1,a\ntxn,u,1,0,x\ntxn,u,1,0,y\nend\n";

const ONE_UPDATE: &str = "deneva,1,ycsb,1\nrow,1,a\ntxn,u,1,0,z\nend\n";

/// The report of the two updates.
const TWO_REPORTS: &str =
    "deneva-report,1,serial,1\ncommit,1,1,0,0\nread,0.1.0.0,a\ncommit,2,2,0,0\nread,0.1.0.0,x\nrow,0.1.0.0,y\nend\n";

/// The words of a run under NO_WAIT.
const NO_WAIT: [&str; 3] = ["replay", "--protocol", "nowait"];

/// The report of that run of the two updates: places 0 and 1 are the starts, place 2 is the first ask and place 3 the
/// second, which is refused.
const RUN_REPORT: &str =
    "deneva-report,1,nowait,1\ncommit,1,1,0,0\nread,0.1.0.0,a\ncommit,2,2,0,0\nread,0.1.0.0,x\nabort,2,1,3,0,held,0.1.0.0,1.1\nrow,0.1.0.0,y\nend\n";

const ROOM: usize = 100_000;

/// The words of a command line.
fn words_of(alloc: Global, words: &[&str]) -> Result<Vec<String>, NoMemory> {
    let mut list = Vec::new(alloc);
    for word in words {
        list.push(String::from_str(alloc, word)?)?;
    }
    Ok(list)
}

/// What a call over memory that never fails ends with, and the sink that it wrote to.
fn run(alloc: Global, words: &[&str], input: &str) -> Result<(u8, SureSink), NoMemory> {
    let words = words_of(alloc, words)?;
    let mut source = SureSource::new(ByteList::from_bytes(alloc, input.as_bytes())?);
    let mut sink = SureSink::new(alloc, ROOM)?;
    let ended = deneva(alloc, &words, &mut source, &mut sink);
    Ok((ended.status, sink))
}

#[test]
fn a_serial_execution_is_reported(rt: HostRuntime) -> Result<(), Fail> {
    let (status, sink) = run(rt.alloc(), &["serial"], TWO_UPDATES)?;
    assert_eq!(rt; status, 0);
    assert_eq!(rt; sink.bytes(), TWO_REPORTS.as_bytes());
    Ok(())
}

#[test]
fn a_run_is_reported(rt: HostRuntime) -> Result<(), Fail> {
    let (status, sink) = run(rt.alloc(), &NO_WAIT, TWO_UPDATES)?;
    assert_eq!(rt; status, 0);
    assert_eq!(rt; sink.bytes(), RUN_REPORT.as_bytes());
    Ok(())
}

#[test]
fn words_that_give_no_command_are_refused(rt: HostRuntime) -> Result<(), Fail> {
    let (status, sink) = run(rt.alloc(), &["serial", "serial"], TWO_UPDATES)?;
    assert_eq!(rt; status, 2);
    assert_eq!(rt; sink.bytes(), b"fault,words\n".as_slice());
    Ok(())
}

#[test]
fn the_first_fault_is_named(rt: HostRuntime) -> Result<(), Fail> {
    let input = "deneva,1,ycsb,1\nrow,1,a\ntxn,r,1,u,1,0,b\nend\n";
    let (status, sink) = run(rt.alloc(), &["serial"], input)?;
    assert_eq!(rt; status, 3);
    assert_eq!(rt; sink.bytes(), b"fault,input,3,5,repeated\n".as_slice());
    Ok(())
}

fn only(alloc: Global, number: u32) -> Result<CountList, NoMemory> {
    let mut numbers = CountList::new(alloc);
    numbers.push(number)?;
    Ok(numbers)
}

/// What a call whose source fails at this read and whose sink fails at this write ends with, and the sink.
fn run_failing(
    alloc: Global,
    words: &[&str],
    input: &str,
    read: u32,
    write: u32,
) -> Result<(Ended, MemSink), NoMemory> {
    let words = words_of(alloc, words)?;
    let bytes = ByteList::from_bytes(alloc, input.as_bytes())?;
    let mut source = MemSource::new(bytes, only(alloc, read)?);
    let mut sink = MemSink::new(alloc, ROOM, only(alloc, write)?)?;
    let ended = deneva(alloc, &words, &mut source, &mut sink);
    Ok((ended, sink))
}

#[test]
fn a_failing_stream_is_told(rt: HostRuntime) -> Result<(), Fail> {
    // The source is read once for its bytes and once for its end; the report is one piece.
    let cases = [
        (0, 9, 4, "fault,read\n"),
        (1, 9, 4, "fault,read\n"),
        (2, 9, 0, TWO_REPORTS),
        (9, 0, 5, ""),
        (9, 1, 0, TWO_REPORTS),
        (0, 0, 5, ""),
    ];
    for (read, write, status, text) in &cases {
        let (ended, sink) = run_failing(rt.alloc(), &["serial"], TWO_UPDATES, *read, *write)?;
        assert_eq!(rt; ended.status, *status);
        assert_eq!(rt; sink.bytes(), text.as_bytes());
    }
    Ok(())
}

#[test]
fn a_run_is_kept_at_status_0_alone(rt: HostRuntime) -> Result<(), Fail> {
    // The source is read once for its bytes and once for its end; the report is one piece. The run has a Start, an Ask, a
    // Granted, a Prepare, a Yes, a Commit and a Done; under CALVIN a Tick, a Batch, a Rows and a Finished.
    let cases = [
        ("nowait", 0, 9, 4, None),
        ("nowait", 1, 9, 4, None),
        ("nowait", 2, 9, 0, Some(7)),
        ("nowait", 9, 0, 5, None),
        ("nowait", 9, 1, 0, Some(7)),
        ("nowait", 0, 0, 5, None),
        ("calvin", 9, 9, 0, Some(4)),
    ];
    for (protocol, read, write, status, entries) in &cases {
        let words = ["replay", "--protocol", *protocol];
        let (ended, _) = run_failing(rt.alloc(), &words, ONE_UPDATE, *read, *write)?;
        assert_eq!(rt; ended.status, *status);
        assert_eq!(rt; ended.run.map(|run| run.history.len()), *entries);
    }
    Ok(())
}

/// A workload of so many rows of one text of 16 bytes.
fn rows_only(alloc: Global, rows: u32) -> Result<ByteList, NoMemory> {
    let mut input = ByteList::from_bytes(alloc, b"deneva,1,ycsb,1\n")?;
    for key in 0..rows {
        input.extend(format!(in alloc; "row,{key},abcdefghijklmnop\n")?.as_bytes())?;
    }
    input.extend(b"end\n")?;
    Ok(input)
}

#[test]
fn a_sink_that_fails_in_the_middle_has_a_first_part(rt: HostRuntime) -> Result<(), Fail> {
    let words = words_of(rt.alloc(), &["serial"])?;
    let mut source = SureSource::new(rows_only(rt.alloc(), 400)?);
    let mut whole = SureSink::new(rt.alloc(), ROOM)?;
    assert_eq!(rt;
        deneva(rt.alloc(), &words, &mut source, &mut whole).status,
        0
    );
    let mut source = SureSource::new(rows_only(rt.alloc(), 400)?);
    let mut part = MemSink::new(rt.alloc(), ROOM, only(rt.alloc(), 2)?)?;
    assert_eq!(rt;
        deneva(rt.alloc(), &words, &mut source, &mut part).status,
        5
    );
    assert_eq!(rt; part.bytes().len(), 8192);
    assert!(rt; whole.bytes().starts_with(part.bytes()));
    Ok(())
}

#[test]
fn the_executor_serves_alone(rt: HostRuntime) -> Result<(), Fail> {
    let bytes = ByteList::from_bytes(rt.alloc(), TWO_UPDATES.as_bytes())?;
    let work = parse_workload(rt.alloc(), &bytes)?;
    let run = run_serial(rt.alloc(), &work, &IdList::new(rt.alloc()))?;
    assert_eq!(rt; run.runs.len(), 0);
    assert_eq!(rt; run.rows == work.load.rows, true);
    Ok(())
}
