//! Runs in which each call of the outside fails in turn: first those of the shelf, then those of
//! the sink, at three paces. One line is printed for calls one behind the other of which the same
//! comes. The last call of a line that ends with no fault is not made.
//!
//! A row has the parts of other rows. Its `stores` names the file that the command stores, which
//! holds another text before. Behind each run with a fault the same words are run once more on the
//! same shelf, which must come out whole.
use crate::row::{Row, count};
use crate::{NEXT, no_rows, print_row};
use circ_outer::{MemoryShelf, MemorySink, Shelf, Sink};
use circ_top::circ;
use std::alloc::{AllocError, Global};
use std::{fmt, io};

/// How many bytes a call of the shelf and one of the sink move at most.
#[derive(Clone, Copy)]
struct Pace {
    pieces: usize,
    writes: usize,
}

const PACES: [Pace; 3] = [
    Pace {
        pieces: 1,
        writes: 1,
    },
    Pace {
        pieces: 7,
        writes: 4,
    },
    Pace {
        pieces: 65_536,
        writes: 65_536,
    },
];

/// More calls than any run makes.
const MOST_CALLS: u64 = 1_000_000;

/// What fails.
#[derive(Clone, Copy, PartialEq)]
enum Device {
    Shelf,
    Sink,
}

/// What was printed, beside the text of the row.
#[derive(Clone, Copy, PartialEq)]
enum Printed {
    Nothing,
    /// As much as the calls before the one that failed took.
    Before,
    Whole,
    Another,
}

/// What the files hold afterwards.
#[derive(Clone, Copy, PartialEq)]
enum Stored {
    Nothing,
    Whole,
    Another,
}

/// What came of a run.
#[derive(Clone, Copy, PartialEq)]
struct Came {
    number: u8,
    count: u64,
    has_fault: bool,
    printed: Printed,
    stored: Stored,
    /// Whether there was a fault, and the run behind it came out whole.
    then_whole: bool,
}

/// Calls one behind the other of which the same comes.
#[derive(Clone, Copy)]
struct Calls {
    first: u64,
    last: u64,
    came: Came,
}

impl fmt::Display for Device {
    fn fmt<W: fmt::Write>(&self, f: &mut fmt::Formatter<W>) -> fmt::Result {
        f.write_str(match self {
            Device::Shelf => "shelf",
            Device::Sink => "sink",
        })
    }
}

impl fmt::Display for Came {
    fn fmt<W: fmt::Write>(&self, f: &mut fmt::Formatter<W>) -> fmt::Result {
        let printed = match self.printed {
            Printed::Nothing => "prints nothing",
            Printed::Before => "prints what was taken before",
            Printed::Whole => "prints all",
            Printed::Another => "PRINTS ANOTHER TEXT",
        };
        let stored = match self.stored {
            Stored::Nothing => "stores nothing",
            Stored::Whole => "stores all",
            Stored::Another => "STORES ANOTHER TEXT",
        };
        let then = match (self.has_fault, self.then_whole) {
            (false, _) => "",
            (true, true) => ", then all",
            (true, false) => ", THEN NOT ALL",
        };
        write!(
            f,
            "{}, counts {}, {printed}, {stored}{then}",
            self.number, self.count
        )
    }
}

/// Prints what comes of each row of a table.
pub fn run_table(rt: &HostRuntime, table: &str) -> io::Result<()> {
    let Some((head, rows)) = table.trim_end().split_once(NEXT) else {
        return no_rows(rt);
    };
    for text in rows.split(NEXT) {
        run_row(rt, &mut Row::new(rt.alloc()), head, text)?;
    }
    Ok(())
}

fn run_row<'a>(
    rt: &HostRuntime,
    row: &mut Row<'a>,
    head: &'a str,
    text: &'a str,
) -> io::Result<()> {
    print_row(rt, row, head, text)?;
    for pace in PACES {
        fail_each(rt, row, pace, Device::Shelf, pace.pieces)?;
        fail_each(rt, row, pace, Device::Sink, pace.writes)?;
    }
    Ok(())
}

/// Prints what comes where each call of a device fails in turn, up to the first that is not made.
fn fail_each(
    rt: &HostRuntime,
    row: &Row<'_>,
    pace: Pace,
    device: Device,
    bytes: usize,
) -> io::Result<()> {
    let mut calls: Option<Calls> = None;
    for call in 1..=MOST_CALLS {
        let came = run_failing(rt.alloc(), row, pace, device, call)?;
        let (ended, next) = join(calls, call, came);
        print_calls(rt, device, bytes, ended)?;
        calls = Some(next);
        if !came.has_fault {
            break;
        }
    }
    print_calls(rt, device, bytes, calls)
}

/// The calls so far with one more: those that have ended, and those that go on.
fn join(calls: Option<Calls>, call: u64, came: Came) -> (Option<Calls>, Calls) {
    match calls {
        Some(before) if before.came == came => (
            None,
            Calls {
                last: call,
                ..before
            },
        ),
        _ => (
            calls,
            Calls {
                first: call,
                last: call,
                came,
            },
        ),
    }
}

fn print_calls(
    rt: &HostRuntime,
    device: Device,
    bytes: usize,
    calls: Option<Calls>,
) -> io::Result<()> {
    if let Some(calls) = calls {
        let (first, last, came) = (calls.first, calls.last, calls.came);
        println!(rt; "{device} by {bytes}, {first} to {last}: {came}")?;
    }
    Ok(())
}

/// What comes of a row where a call of a device fails.
fn run_failing(
    alloc: Global,
    row: &Row<'_>,
    pace: Pace,
    device: Device,
    call: u64,
) -> Result<Came, AllocError> {
    let words = row.words(alloc)?;
    let mut shelf = row.shelf(alloc, pace.pieces.max(1))?;
    let mut sink = MemorySink::new(alloc, pace.writes.max(1));
    let planned = match device {
        Device::Shelf => shelf.fail_at(call),
        Device::Sink => sink.fail_at(call),
    };
    planned?;
    let status = circ(alloc, &words, &mut shelf, &mut sink);
    let taken = match device {
        Device::Shelf => None,
        Device::Sink => Some(call.saturating_sub(1).saturating_mul(pace.writes as u64)),
    };
    let came = Came {
        number: status.number(),
        count: count(&status),
        has_fault: shelf.faults() > 0 || sink.faults() > 0,
        printed: printed_text(row, sink.bytes(), taken),
        stored: stored_files(row, &shelf),
        then_whole: false,
    };
    let then_whole = came.has_fault && is_whole_again(alloc, row, &words, &mut shelf)?;
    Ok(Came { then_whole, ..came })
}

/// Whether a run on this shelf comes out whole.
fn is_whole_again(
    alloc: Global,
    row: &Row<'_>,
    words: &Vec<String>,
    shelf: &mut MemoryShelf,
) -> Result<bool, AllocError> {
    let mut sink = MemorySink::new(alloc, 65_536);
    let status = circ(alloc, words, shelf, &mut sink);
    let want = match row.last("stores") {
        Some(_) => Stored::Whole,
        None => Stored::Nothing,
    };
    Ok(
        row.is_answered(u64::from(status.number()), sink.bytes())
            && stored_files(row, shelf) == want,
    )
}

/// What was printed, where the calls of the sink before the one that failed took so many bytes.
fn printed_text(row: &Row<'_>, text: &[u8], taken: Option<u64>) -> Printed {
    let whole = row
        .last("prints")
        .map_or(b"".as_slice(), |part| part.text.as_bytes());
    if text == whole {
        return Printed::Whole;
    }
    match taken {
        None if text.is_empty() => Printed::Nothing,
        Some(taken) if text.len() as u64 == taken && whole.starts_with(text) => Printed::Before,
        _ => Printed::Another,
    }
}

/// What the files hold, beside what they held before.
fn stored_files(row: &Row<'_>, shelf: &MemoryShelf) -> Stored {
    let target = row.last("stores");
    let mut changed = 0u64;
    for part in &row.parts {
        if part.kind == "file" && shelf.get(part.name) != Some(part.text.as_bytes()) {
            if target.is_none_or(|target| target.name != part.name) {
                return Stored::Another;
            }
            changed = changed.saturating_add(1);
        }
    }
    match target {
        _ if changed == 0 => Stored::Nothing,
        Some(target) if target.is_kept(shelf) => Stored::Whole,
        _ => Stored::Another,
    }
}
