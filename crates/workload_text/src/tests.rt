//! Files over memory: each call once, and what it gives.
use crate::{
    FaultKind, InputFault, ReadError, parse_prefix, parse_workload, read_bytes, read_workload,
};
use deneva_base::{ByteList, Cell};
use deneva_io::SureSource;
use std::test::Fail;
use txn_program::valid;

const TWO_UPDATES: &str = "deneva,1,ycsb,1\nrow,1,a\ntxn,u,1,0,x\ntxn,u,1,0,y\nend\n";

#[test]
fn a_source_is_read_to_its_end(rt: HostRuntime) -> Result<(), Fail> {
    let mut source = SureSource::new(ByteList::from_bytes(rt.alloc(), TWO_UPDATES.as_bytes())?);
    let bytes = read_bytes(rt.alloc(), &mut source, 100)?;
    assert_eq!(rt; bytes.as_slice(), TWO_UPDATES.as_bytes());
    let mut source = SureSource::new(bytes.copy(rt.alloc())?);
    let too_long = InputFault {
        record_no: 0,
        field_no: 0,
        kind: FaultKind::TooLong,
    };
    assert_eq!(rt;
        read_bytes(rt.alloc(), &mut source, 10).err(),
        Some(ReadError::Fault(too_long))
    );
    let work = parse_workload(rt.alloc(), &bytes)?;
    assert_eq!(rt; valid(&work), true);
    let mut source = SureSource::new(bytes);
    assert_eq!(rt; read_workload(rt.alloc(), &mut source)?.programs.len(), 2);
    Ok(())
}

#[test]
fn quoted_fields_are_read(rt: HostRuntime) -> Result<(), Fail> {
    let text = "\u{FEFF}\"deneva\",1,ycsb,1\r\n\nrow,1,\"a,b\"\rrow,2,\"say \"\"so\"\"\"\n\"end\"";
    let bytes = ByteList::from_bytes(rt.alloc(), text.as_bytes())?;
    let work = parse_workload(rt.alloc(), &bytes)?;
    assert_eq!(rt; work.load.rows.len(), 2);
    let said = Cell::Text(ByteList::from_bytes(rt.alloc(), b"say \"so\"")?);
    let last = work.load.rows.as_slice().last();
    let cell = last.and_then(|keyed| keyed.row.as_slice().first());
    assert_eq!(rt; cell == Some(&said), true);
    Ok(())
}

#[test]
fn a_file_is_taken_from_the_front(rt: HostRuntime) -> Result<(), Fail> {
    let mut bytes = ByteList::from_bytes(rt.alloc(), TWO_UPDATES.as_bytes())?;
    bytes.extend(b"report,1\n")?;
    let (work, count) = parse_prefix(rt.alloc(), &bytes)?;
    assert_eq!(rt; (work.programs.len(), count), (2, 5));
    let trailing = InputFault {
        record_no: 6,
        field_no: 0,
        kind: FaultKind::Trailing,
    };
    assert_eq!(rt;
        parse_workload(rt.alloc(), &bytes).err(),
        Some(ReadError::Fault(trailing))
    );
    Ok(())
}

#[test]
fn faults_say_their_place(rt: HostRuntime) -> Result<(), Fail> {
    let fault = InputFault {
        record_no: 3,
        field_no: 2,
        kind: FaultKind::TooMany { limit: 16 },
    };
    assert_eq!(rt;
        format!(in rt.alloc(); "{}", ReadError::Fault(fault))?.as_str(),
        "record 3, field 2: more than 16"
    );
    let whole = InputFault {
        record_no: 0,
        field_no: 0,
        kind: FaultKind::TooLong,
    };
    assert_eq!(rt;
        format!(in rt.alloc(); "{}", ReadError::Fault(whole))?.as_str(),
        "more bytes than a workload file may have"
    );
    assert_eq!(rt;
        format!(in rt.alloc(); "{}", ReadError::NoMemory)?.as_str(),
        "out of memory"
    );
    Ok(())
}
