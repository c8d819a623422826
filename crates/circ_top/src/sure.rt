//! The program over files and a text in memory, which never fail.
ghost use Rattle.std.specs.Prelude.{◌≡◌, ◌⊎◌, ℕ, List, Option, map, string_bytes};
ghost use Rattle.circ_outer.specs.SureShelf.{holds_of, state_of as shelf_state};
ghost use Rattle.circ_outer.specs.SureSink.{state_of as sink_state};
ghost use Rattle.circ_status.specs.Ending.{Stored};
ghost use Rattle.circ_top.specs.Outcome.{Outcome};
ghost use Rattle.circ_top.specs.Promises.{Promises};
ghost use Rattle.circ_top.specs.Run.{run_of};
ghost use Rattle.circ_top.specs.InMemory.{HoldsFiles, AppendsAnswer, Appends};

use crate::command::circ;
use circ_outer::{SureShelf, SureSink};
use circ_status::Status;
use std::alloc::Global;

/// Runs [`circ`] over files and a text in memory, so that what it promises holds. No fault of the
/// outside is answered where the files of the command are held: the outcome comes, with its text,
/// or memory ran out.
pub fn circ_in_memory(
    alloc: Global,
    words: &Vec<String>,
    shelf: &mut SureShelf,
    out: &mut SureSink,
) -> Status
    ensures promises { Promises (run_of (map string_bytes words.now.items)
        (shelf_state shelf.old) (shelf_state shelf.new)
        (sink_state out.old) (sink_state out.new)) result }
    ensures no_read_fault { HoldsFiles (map string_bytes words.now.items) (holds_of shelf.old) →
        (n : ℕ) → result ≡ Status.ReadFault n → ⊥ }
    ensures no_write_fault { (n : ℕ) → result ≡ Status.WriteFault n → ⊥ }
    ensures outcome { HoldsFiles (map string_bytes words.now.items) (holds_of shelf.old) →
        Appends (run_of (map string_bytes words.now.items)
        (shelf_state shelf.old) (shelf_state shelf.new)
        (sink_state out.old) (sink_state out.new)) result }
    ensures complete { (s : Status) (text : List ℕ) (stored : Option Stored) →
        Outcome (map string_bytes words.now.items) (holds_of shelf.old) s text stored →
        AppendsAnswer (run_of (map string_bytes words.now.items)
        (shelf_state shelf.old) (shelf_state shelf.new)
        (sink_state out.old) (sink_state out.new)) s text stored result
        ⊎ (result ≡ Status.Memory) }
{
    circ(alloc, words, shelf, out)
}
