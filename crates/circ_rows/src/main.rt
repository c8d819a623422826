//! Runs each row of the tables in data/ over files and a text in memory, and prints what came of
//! it: a line for each table, its name, and one for each row, its name and the answer's number.
//!
//! A table is a text. A line that begins with `== ` begins a part, whose text is what stands below
//! it; an empty line before a line `== row NAME` ends a row. What stands before the first row is
//! the head, whose parts belong to every row of the table. Where a row does not come out as it
//! must, what came follows its name.
#![tactic(auto)]

mod faults;
mod part;
mod row;

use row::Row;
use std::alloc::{AllocError, Global};
use std::{fs, io};

/// The tables, in the order in which they are run.
const TABLES: [&str; 33] = [
    "rows-words",
    "rows-faults",
    "rows-causes",
    "rows-limits",
    "rows-statements",
    "rows-terms",
    "rows-show",
    "rows-reduce",
    "rows-conditional-reduce",
    "rows-memo",
    "rows-contexts",
    "rows-prove",
    "rows-search",
    "rows-check",
    "rows-chains",
    "rows-proofs",
    "rows-lines",
    "rows-bytes",
    "rows-circular",
    "rows-conditions",
    "rows-conditional-search",
    "rows-rewriting",
    "rows-content",
    "rows-changed-contexts",
    "rows-changed-proofs",
    "rows-automata",
    "rows-expressions",
    "rows-upgrade",
    "rows-differ",
    "rows-conditional-differ",
    "rows-trace",
    "rows-experiments",
    "rows-expand",
];

/// The table of which each call of the outside fails in turn.
const FAULTS: &str = "rows-each-call";

/// What ends a row and begins the next.
const NEXT: &str = "\n\n== row ";

/// Prints what came of a row of this head and this text, which is put into it.
fn print_row<'a>(
    rt: &HostRuntime,
    row: &mut Row<'a>,
    head: &'a str,
    text: &'a str,
) -> io::Result<()> {
    let name = text.lines().next().unwrap_or("");
    let outcome = outcome(rt.alloc(), row, head, text)?;
    println!(rt; "{name}: {outcome}")
}

fn outcome<'a>(
    alloc: Global,
    row: &mut Row<'a>,
    head: &'a str,
    text: &'a str,
) -> Result<String, AllocError> {
    row.read(alloc, head)?;
    row.read(alloc, text)?;
    row.outcome(alloc)
}

/// Prints that a table has no row.
fn no_rows(rt: &HostRuntime) -> io::Result<()> {
    println!(rt; "a table without a row")
}

/// Prints what came of each row of a table.
fn run_table(rt: &HostRuntime, table: &str) -> io::Result<()> {
    let Some((head, rows)) = table.trim_end().split_once(NEXT) else {
        return no_rows(rt);
    };
    for text in rows.split(NEXT) {
        print_row(rt, &mut Row::new(rt.alloc()), head, text)?;
    }
    Ok(())
}

fn main(rt: HostRuntime) -> io::Result<()> {
    for name in TABLES {
        println!(rt; "{name}")?;
        let table = fs::read_to_string(&rt, name)?;
        run_table(&rt, table.as_str())?;
    }
    println!(rt; "{FAULTS}")?;
    let table = fs::read_to_string(&rt, FAULTS)?;
    faults::run_table(&rt, table.as_str())
}
