//! Each public call over memory once, and the tables of the calls that fail.
use crate::{Got, MemSink, MemSource, Put, Sink, Source, SureSink, SureSource};
use deneva_base::{ByteList, CountList};
use std::test::Fail;

/// One read of at most two bytes, by the bound alone.
fn read_two<S: Source>(source: &mut S) -> (Got, [u8; 2]) {
    let mut buf = [0; 2];
    let got = source.read(&mut buf);
    (got, buf)
}

/// One write, by the bound alone.
fn write_piece<K: Sink>(sink: &mut K, piece: &[u8]) -> Put {
    if piece.is_empty() {
        return Put::Took(0);
    }
    sink.write(piece)
}

#[test]
fn sure_source_gives_all(rt: HostRuntime) -> Result<(), Fail> {
    let mut source = SureSource::new(ByteList::from_bytes(rt.alloc(), b"abc")?);
    assert_eq!(rt; read_two(&mut source), (Got::Bytes(2), *b"ab"));
    let (got, buf) = read_two(&mut source);
    assert_eq!(rt; got, Got::Bytes(1));
    assert_eq!(rt; buf[0], b'c');
    assert_eq!(rt; read_two(&mut source).0, Got::End);
    Ok(())
}

#[test]
fn mem_source_fails_where_listed(rt: HostRuntime) -> Result<(), Fail> {
    let bytes = ByteList::from_bytes(rt.alloc(), b"abcde")?;
    let fails = CountList::of([1, 3].to_vec(rt.alloc())?);
    let mut source = MemSource::new(bytes, fails);
    let answers = [
        (Got::Bytes(2), b'a'),
        (Got::Failed, 0),
        (Got::Bytes(2), b'c'),
        (Got::Failed, 0),
        (Got::Bytes(1), b'e'),
        (Got::End, 0),
    ];
    for (want, first) in answers {
        let (got, buf) = read_two(&mut source);
        assert_eq!(rt; got, want);
        assert_eq!(rt; buf[0], first);
    }
    Ok(())
}

#[test]
fn sure_sink_keeps_its_room(rt: HostRuntime) -> Result<(), Fail> {
    let mut sink = SureSink::new(rt.alloc(), 3)?;
    for (piece, bytes, count) in [("ab", "ab", 2), ("cd", "abc", 4), ("e", "abc", 5)] {
        assert_eq!(rt;
            write_piece(&mut sink, piece.as_bytes()),
            Put::Took(piece.len())
        );
        assert_eq!(rt; sink.bytes(), bytes.as_bytes());
        assert_eq!(rt; sink.count(), count);
    }
    Ok(())
}

#[test]
fn mem_sink_fails_where_listed(rt: HostRuntime) -> Result<(), Fail> {
    let fails = CountList::of([0, 2].to_vec(rt.alloc())?);
    let mut sink = MemSink::new(rt.alloc(), 3, fails)?;
    let answers = [
        (Put::Failed, "", 0),
        (Put::Took(2), "xy", 2),
        (Put::Failed, "xy", 2),
        (Put::Took(2), "xyx", 4),
    ];
    for (want, bytes, count) in answers {
        assert_eq!(rt; write_piece(&mut sink, b"xy"), want);
        assert_eq!(rt; sink.bytes(), bytes.as_bytes());
        assert_eq!(rt; sink.count(), count);
    }
    Ok(())
}
