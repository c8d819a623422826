//! What no clause says: that calls succeed, and what real files do.
use circ_outer::{
    HostShelf, HostSink, MemoryShelf, MemorySink, OuterFault, Shelf, Sink, SureShelf, SureSink,
    write_all,
};
use std::alloc::Global;
use std::fmt::Display;
use std::io::ErrorKind;
use std::process::Abort;
use std::test::Fail;
use std::{env, fs, io, process};

const TEXT: &str = "abcdefgh";

/// A runtime whose output is closed.
#[derive(Drop)]
struct ClosedOutput;

impl Print for ClosedOutput {
    fn print<D: Display + Drop>(&self, _value: D) -> io::Result<()> {
        Err(io::Error::from(ErrorKind::BrokenPipe))
    }

    fn println<D: Display + Drop>(&self, _value: D) -> io::Result<()> {
        Err(io::Error::from(ErrorKind::BrokenPipe))
    }

    fn write_all(&self, _bytes: &[u8]) -> io::Result<()> {
        Err(io::Error::from(ErrorKind::BrokenPipe))
    }
}

fn is_held(held: Option<&[u8]>, want: &[u8]) -> bool {
    held.is_some_and(|bytes| bytes == want)
}

/// A file that is whole after three pieces of at most 5 bytes.
fn take_all<S: Shelf>(alloc: Global, shelf: &mut S, name: &str) -> Result<Vec<u8>, OuterFault> {
    shelf.begin(name)?;
    let mut bytes = Vec::new(alloc);
    let mut buf = [0u8; 5];
    let first = shelf.piece(&mut buf)?;
    bytes.extend_from_slice(&buf[..first])?;
    let second = shelf.piece(&mut buf)?;
    bytes.extend_from_slice(&buf[..second])?;
    let third = shelf.piece(&mut buf)?;
    bytes.extend_from_slice(&buf[..third])?;
    match shelf.piece(&mut buf)? {
        0 => Ok(bytes),
        _ => Err(OuterFault::Failed),
    }
}

/// A begin, a piece and a put, as the numbers of the calls that failed.
fn failed_calls(alloc: Global, shelf: &mut MemoryShelf) -> Result<Vec<u64>, Fail> {
    let mut failed = Vec::new(alloc);
    let mut buf = [0u8; 5];
    match shelf.begin("a") {
        Ok(()) => {
            if shelf.piece(&mut buf).is_err() {
                failed.push(2)?;
            }
        }
        Err(_) => failed.push(1)?,
    }
    if shelf.put("b", b"new").is_err() {
        failed.push(3)?;
    }
    Ok(failed)
}

fn assert_shelf<S: Shelf>(
    rt: &(impl Abort + AllocGlobal),
    shelf: &mut S,
    name: &str,
    faults: u64,
) -> Result<(), Fail> {
    assert!(rt; shelf.begin("absent") == Err(OuterFault::Failed));
    assert!(rt; shelf.faults() == faults);
    assert_gives(rt, shelf, name, TEXT.as_bytes())?;
    assert_gives(rt, shelf, name, b"new")?;
    assert!(rt; shelf.faults() == faults);
    Ok(())
}

/// What is put is taken again.
fn assert_gives<S: Shelf>(
    rt: &(impl Abort + AllocGlobal),
    shelf: &mut S,
    name: &str,
    bytes: &[u8],
) -> Result<(), Fail> {
    shelf.put(name, bytes)?;
    let taken = take_all(rt.alloc(), shelf, name)?;
    assert!(rt; taken.as_slice() == bytes);
    Ok(())
}

#[test]
fn shelves_give_what_was_put(rt: HostRuntime) -> Result<(), Fail> {
    assert_memory(&rt, &mut MemoryShelf::new(rt.alloc(), 3))?;
    assert_sure(&rt, &mut SureShelf::new(rt.alloc(), 3))
}

fn assert_memory(rt: &(impl Abort + AllocGlobal), shelf: &mut MemoryShelf) -> Result<(), Fail> {
    shelf.add("kept", b"kept")?;
    assert_shelf(rt, shelf, "a", 0)?;
    assert!(rt; is_held(shelf.get("kept"), b"kept"));
    assert!(rt; is_held(shelf.get("a"), b"new"));
    assert!(rt; shelf.get("absent").is_none());
    Ok(())
}

fn assert_sure(rt: &(impl Abort + AllocGlobal), shelf: &mut SureShelf) -> Result<(), Fail> {
    shelf.add("kept", b"kept")?;
    assert_shelf(rt, shelf, "a", 0)?;
    assert!(rt; is_held(shelf.get("kept"), b"kept"));
    assert!(rt; is_held(shelf.get("a"), b"new"));
    assert!(rt; shelf.get("absent").is_none());
    Ok(())
}

/// The calls that fail, by the call that is to fail. A begin that fails leaves no piece to take, so
/// that the put is the second call.
const FAILED_CALLS: [(u64, &[u64]); 4] = [(1, &[1]), (2, &[2]), (3, &[3]), (4, &[])];

#[test]
fn listed_calls_fail(rt: HostRuntime) -> Result<(), Fail> {
    for (call, want) in FAILED_CALLS {
        assert_failed(&rt, &mut MemoryShelf::new(rt.alloc(), 3), call, want)?;
    }
    Ok(())
}

fn assert_failed(
    rt: &(impl Abort + AllocGlobal),
    shelf: &mut MemoryShelf,
    call: u64,
    want: &[u64],
) -> Result<(), Fail> {
    shelf.add("a", TEXT.as_bytes())?;
    shelf.fail_at(call)?;
    let failed = failed_calls(rt.alloc(), shelf)?;
    let are_counted = shelf.faults() == want.len() as u64;
    let is_put = shelf.get("b").is_some() == (call != 3);
    assert!(rt;
        failed.as_slice() == want && are_counted && is_put,
        "call {call}"
    );
    Ok(())
}

#[test]
fn sinks_take_what_they_may(rt: HostRuntime) -> Result<(), Fail> {
    for (call, want) in [(1, ""), (2, "abc"), (3, "abcdef"), (4, TEXT)] {
        assert_taken(&rt, &mut MemorySink::new(rt.alloc(), 3), call, want)?;
    }
    assert_all_taken(&rt, &mut SureSink::new(rt.alloc(), 3))
}

fn assert_taken(rt: &impl Abort, sink: &mut MemorySink, call: u64, want: &str) -> Result<(), Fail> {
    sink.fail_at(call)?;
    let is_written = write_all(sink, TEXT.as_bytes()).is_ok();
    let is_faultless = sink.faults() == 0;
    assert!(rt;
        is_written == (call == 4) && is_faultless == is_written,
        "call {call}"
    );
    assert!(rt; sink.bytes() == want.as_bytes(), "call {call}");
    Ok(())
}

fn assert_all_taken(rt: &impl Abort, sink: &mut SureSink) -> Result<(), Fail> {
    write_all(sink, TEXT.as_bytes())?;
    assert!(rt; sink.bytes() == TEXT.as_bytes());
    assert!(rt; sink.faults() == 0);
    Ok(())
}

#[test]
fn real_files_are_read_back(rt: HostRuntime) -> Result<(), Fail> {
    let path = new_path(&rt)?;
    let mut shelf = HostShelf::new(rt.clone()?);
    assert_real_files(&rt, &mut shelf, path.as_str())
}

/// The path of a file for a test.
fn new_path(rt: &HostRuntime) -> io::Result<String> {
    let folder = env::temp_dir(rt)?.into_string();
    let id = process::id(rt.process());
    Ok(format!(in rt.alloc(); "{folder}/circ_outer_test_{id}")?)
}

fn assert_real_files(
    rt: &(impl Abort + fs::Files + AllocGlobal),
    shelf: &mut HostShelf<HostRuntime>,
    path: &str,
) -> Result<(), Fail> {
    assert_shelf(rt, shelf, path, 1)?;
    fs::remove_file(rt, path)?;
    // A folder is no file, to read or to write.
    assert!(rt; take_all(rt.alloc(), shelf, "/").is_err());
    assert!(rt; shelf.faults() == 2);
    assert!(rt; shelf.put("/", b"new") == Err(OuterFault::Failed));
    assert!(rt; shelf.faults() == 3);
    Ok(())
}

#[test]
fn standard_output_takes_bytes(rt: HostRuntime) -> Result<(), Fail> {
    let mut sink = HostSink::new(rt.clone()?);
    write_all(&mut sink, b"written by a test\n")?;
    assert!(rt; sink.faults() == 0);
    Ok(())
}

#[test]
fn closed_output_is_a_fault(rt: HostRuntime) -> Result<(), Fail> {
    let mut sink = HostSink::new(ClosedOutput);
    assert!(rt; write_all(&mut sink, b"lost") == Err(OuterFault::Failed));
    assert!(rt; sink.faults() == 1);
    assert!(rt; write_all(&mut sink, b"") == Ok(()));
    assert!(rt; sink.faults() == 1);
    Ok(())
}
