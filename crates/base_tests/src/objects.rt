//! The files and outputs in memory, what says when a run ends, and kinds.

use pw_graph::Kind;
use pw_lists::{Items, Memory, Text, Which};
use pw_outside::{
    Every, FileFail, Files, Gate, Loaded, MemFiles, MemSink, Never, Open, Sink, SureFiles,
    SureSink, Ticker,
};
use std::alloc::Global;
use std::test::Fail;

// Whether a load gave these bytes.
fn is_whole(loaded: Result<Loaded, FileFail>, bytes: &[u8]) -> bool {
    match loaded {
        Ok(Loaded::Whole(whole)) => whole.as_slice() == bytes,
        _ => false,
    }
}

// Whether a file has these bytes.
fn is_file(file: Option<&Items<u8>>, bytes: &[u8]) -> bool {
    match file {
        Some(file) => file.as_slice() == bytes,
        None => false,
    }
}

// A file `a`, and faults of the fourth load and of the second store and the third.
fn faulty(alloc: Global, a: &Text) -> Result<MemFiles, Memory> {
    let mut files = MemFiles::new(alloc)?;
    files.add_file(alloc, a, b"12")?;
    files.fail_load(alloc, 4)?;
    files.fail_store(alloc, 2, 1)?;
    files.fail_store(alloc, 3, 9)?;
    Ok(files)
}

// Four loads.
fn loads_fail_where_told(alloc: Global, files: &mut MemFiles, a: &Text, b: &Text) -> bool {
    is_whole(files.load(alloc, a, 2), b"12")
        && matches!(files.load(alloc, b, 2), Ok(Loaded::Absent))
        && matches!(files.load(alloc, a, 1), Ok(Loaded::TooLong))
        && matches!(files.load(alloc, a, 2), Err(FileFail::Failed))
}

// Three stores.
fn stores_fail_where_told(alloc: Global, files: &mut MemFiles, a: &Text, b: &Text) -> bool {
    files.store(alloc, b, b"345") == Ok(())
        && files.store(alloc, a, b"678") == Err(FileFail::Failed)
        && is_file(files.file(a), b"6")
        && is_file(files.file(b), b"345")
        // More than there is to keep is all of it.
        && files.store(alloc, a, b"90") == Err(FileFail::Failed)
        && is_file(files.file(a), b"90")
}

#[test]
fn files_in_memory_fail_where_told(rt: HostRuntime) -> Result<(), Fail> {
    let alloc = rt.alloc();
    let a = Items::from_slice(alloc, b"a")?;
    let b = Items::from_slice(alloc, b"b")?;
    let mut files = faulty(alloc, &a)?;
    assert!(rt; loads_fail_where_told(alloc, &mut files, &a, &b));
    assert!(rt; stores_fail_where_told(alloc, &mut files, &a, &b));
    Ok(())
}

// A file is stored beside one that is there.
#[test]
fn sure_files_never_fail(rt: HostRuntime) -> Result<(), Fail> {
    let alloc = rt.alloc();
    let a = Items::from_slice(alloc, b"a")?;
    let b = Items::from_slice(alloc, b"b")?;
    let mut files = SureFiles::new(alloc)?;
    files.add_file(alloc, &a, b"1")?;
    assert!(rt; files.store(alloc, &b, b"2") == Ok(()));
    assert!(rt; is_whole(files.load(alloc, &b, 9), b"2") && is_file(files.file(&a), b"1"));
    Ok(())
}

// The second write fails and the fourth.
#[test]
fn outputs_in_memory_fail_where_told(rt: HostRuntime) -> Result<(), Fail> {
    let alloc = rt.alloc();
    let mut out = MemSink::new(alloc)?;
    out.fail_put(alloc, 2, 1)?;
    out.fail_put(alloc, 4, 9)?;
    assert!(rt;
        out.put(alloc, b"ab") == Ok(())
            && out.put(alloc, b"cd") == Err(FileFail::Failed)
            && out.put(alloc, b"e") == Ok(())
            && out.put(alloc, b"fg") == Err(FileFail::Failed)
    );
    assert!(rt; out.bytes().as_slice() == b"abcefg".as_slice());
    let mut sure = SureSink::new(alloc)?;
    assert!(rt; sure.put(alloc, b"f") == Ok(()) && sure.bytes().as_slice() == b"f".as_slice());
    Ok(())
}

#[test]
fn tickers_are_due_where_told(rt: HostRuntime) {
    assert!(rt; !Never::new().due());
    let mut every = Every::new(2);
    assert!(rt; !every.due() && every.due() && !every.due() && every.due());
    Open::new().enter(0, 0);
}

#[test]
fn kinds_have_their_ports(rt: HostRuntime) {
    let kind = Kind::Mix2 { ga: 1, gb: 1 };
    assert!(rt; kind.inputs() == 2 && kind.outputs() == 1 && kind.port_name(1) == b"b".as_slice());
    assert!(rt; Kind::Split.port_name(2) == b"right".as_slice() && Kind::Dummy.inputs() == 0);
    assert!(rt; Which::ScriptBytes.number() == 1 && Which::TraceBytes.number() == 11);
}
