//! The program as a page of a browser calls it: words, and three files in memory that go by the
//! names `theory`, `goals` and `proof`.
//!
//! [`circ_page`] hands them to the program over a shelf and a sink that never fail but for want of
//! memory. What C sees of it stands in `docs/page.md`.
#![tactic(auto)]

ghost use Rattle.std.specs.Prelude.{◌≡◌, IfOk, map, string_bytes, codes};
ghost use Rattle.std.specs.Str.Lines.{lines as lines_of};
ghost use Rattle.circ_outer.specs.SureShelf.{state_of as shelf_state, holds_of};
ghost use Rattle.circ_outer.specs.SureSink.{state_of as sink_state};
ghost use Rattle.circ_page.specs.Page.{file_bytes, HoldsPage, HandsOut, RunsPage, AnswersPage};

use circ_outer::{SureShelf, SureSink};
use circ_top::{Status, circ};
use std::alloc::{AllocError, Global};
use std::str;

/// How many bytes a call of the shelf or of the sink moves at most.
const PIECE: usize = 65_536;

/// The number where the words are no text: that of words which are no command.
const NO_WORDS: u8 = 3;

/// The number where memory runs out before the program runs: that of a program without memory.
const NO_MEMORY: u8 = 9;

/// How many bytes the answer's text has, and the file `proof` afterwards. What is longer than its
/// buffer was cut there.
#[repr(C)]
pub struct Lengths {
    pub text: usize,
    pub proof: usize,
}

/// A run of the program that is over: its answer, its files and its text.
#[derive(Drop)]
struct Ended {
    status: Status,
    shelf: SureShelf,
    sink: SureSink,
}

/// Moves as many bytes as there is room for to the front of the buffer, and says how many there
/// are.
fn hand_out(bytes: &[u8], room: &mut [u8]) -> usize
    ensures { HandsOut bytes.now room.old room.new result }
{
    let count = bytes.len().min(room.len());
    room[..count].copy_from_slice(&bytes[..count]);
    bytes.len()
}

/// The words of a command, which stand one a line.
fn words_of(alloc: Global, lines: &str) -> Result<Vec<String>, AllocError>
    ensures { IfOk result (λ v. map string_bytes v.items ≡ lines_of lines.now) }
{
    let mut words = Vec::new(alloc);
    for word in lines.lines() {
        words.push(String::from_str(alloc, word)?)?;
    }
    Ok(words)
}

/// The files of the page.
fn shelf_of(
    alloc: Global,
    theory: &[u8],
    goals: &[u8],
    proof: &[u8],
) -> Result<SureShelf, AllocError>
    ensures { IfOk result (λ s. HoldsPage theory.now goals.now proof.now (shelf_state s)) }
{
    let mut shelf = SureShelf::new(alloc, PIECE);
    shelf.add("theory", theory)?;
    shelf.add("goals", goals)?;
    shelf.add("proof", proof)?;
    Ok(shelf)
}

/// What the file `proof` holds.
fn proof_in(shelf: &SureShelf) -> &[u8]
    ensures { result.now ≡ file_bytes (holds_of shelf.now (codes "proof")) }
{
    match shelf.get("proof") {
        Some(bytes) => bytes,
        None => &[],
    }
}

/// Runs the program over the files of the page.
fn run(
    alloc: Global,
    words: &str,
    theory: &[u8],
    goals: &[u8],
    proof: &[u8],
) -> Result<Ended, AllocError>
    ensures { IfOk result (λ r. RunsPage (lines_of words.now) theory.now goals.now proof.now
        r.status (shelf_state r.shelf) (sink_state r.sink)) }
{
    let words = words_of(alloc, words)?;
    let mut shelf = shelf_of(alloc, theory, goals, proof)?;
    let mut sink = SureSink::new(alloc, PIECE);
    let status = circ(alloc, &words, &mut shelf, &mut sink);
    Ok(Ended {
        status,
        shelf,
        sink,
    })
}

/// Runs the program with words, one a line, of which the first is its name, and answers the number
/// with which it ends. Its text and what `proof` holds afterwards go to the front of the two
/// buffers, each as far as there is room, and how long they are to `lengths`.
#[unsafe(no_mangle)]
pub extern "C" fn circ_page(
    alloc: Global,
    words: &[u8],
    theory: &[u8],
    goals: &[u8],
    proof: &[u8],
    text: &mut [u8],
    stored: &mut [u8],
    lengths: &mut Lengths,
) -> u8
    ensures { AnswersPage words.now theory.now goals.now proof.now result
        text.old text.new lengths.new.text stored.old stored.new lengths.new.proof }
{
    lengths.text = 0;
    lengths.proof = 0;
    let Ok(words) = str::from_utf8(words) else {
        return NO_WORDS;
    };
    let Ok(run) = run(alloc, words, theory, goals, proof) else {
        return NO_MEMORY;
    };
    lengths.text = hand_out(run.sink.bytes(), text);
    lengths.proof = hand_out(proof_in(&run.shelf), stored);
    run.status.number()
}
