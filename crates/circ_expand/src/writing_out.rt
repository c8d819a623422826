//! A derivation without hypotheses is written out from an accepted proof.
ghost use Rattle.std.specs.Prelude.{◌≡◌, IfOk, Some, Err, map};
ghost use Rattle.std.specs.List.{slice_get};
ghost use Rattle.circ_theory.specs.Goal.{Goal};
ghost use Rattle.circ_proof.specs.Proof.{ProofFor, IsPlain};
ghost use Rattle.circ_proof.specs.PlainProof.{plain_proof};
ghost use Rattle.circ_proof.specs.Accepted.{Accepted};
ghost use Rattle.circ_entry.specs.Plain.{plain_entries};
ghost use Rattle.circ_expansion.specs.Pieces.{Pieces};
ghost use Rattle.circ_expansion.specs.Expand.{Spending, expansion};
ghost use Rattle.circ_expansion.specs.Goals.{all_goals, FitGoal};
ghost use Rattle.circ_expansion.specs.Answers.{LeadsOnGoal};
ghost use Rattle.circ_expansion.specs.Machine.{worked_off};
ghost use Rattle.circ_book.specs.Book.{IsBook};
ghost use Rattle.circ_tasks.specs.Tasks.{WritesOut, AreFew, Halts, past_of};
ghost use Rattle.circ_tasks.specs.declared.tasks.Halt.TheVariants.{Stopped};
ghost use Rattle.circ_term.specs.Limits.{Names};
ghost use Rattle.circ_written.specs.Rows.{plain_row, rows_of, unit_limit};
ghost use Rattle.circ_expand.specs.Outcomes.{IsWrittenOut};

use crate::fault::ExpandFault;
use crate::opening::write_out;
use circ_book::Ground;
use circ_entry::Entry;
use circ_proof::Proof;
use circ_table::Table;
use circ_tasks::{Frame, Halt};
use circ_term::TermFault;
use circ_theory::Theory;
use circ_written::Row;
use std::alloc::Global;

/// The derivation from the experiment on the left side of a goal, counted from 0, to that on its
/// right side, with no hypothesis. There are 100,000 units: each use of a goal, each link and each
/// split is one. The proof's steps are done again by the lines of its table.
pub fn expand(
    alloc: Global,
    theory: &Theory,
    proof: &Proof,
    lines: &Table,
    goal: u32,
    entries: &[Entry],
) -> Result<Vec<Row>, ExpandFault>
    requires lines { lines.now ≡ proof.now.table.items }
    requires for_theory { ProofFor theory.now (plain_proof proof.now) }
    requires plain { IsPlain (plain_proof proof.now) }
    requires accepted { Accepted theory.now (plain_proof proof.now) }
    requires fits { FitGoal theory.now (plain_proof proof.now) goal (plain_entries entries.now) }
    ensures exact { IsWrittenOut (expansion unit_limit theory.now (plain_proof proof.now) goal
        (plain_entries entries.now)) result }
    ensures leads { (g : Goal) → slice_get (all_goals (plain_proof proof.now).blocks) goal ≡ Some g →
        IfOk result (λ rows. (xs : Pieces) × (map plain_row rows.items ≡ rows_of xs) ×
        LeadsOnGoal theory.now xs (plain_entries entries.now) g) }
{
    theory.known();
    match written(alloc, &*theory, &*proof, lines, goal, entries) {
        Ok(rows) => Ok(rows),
        Err(halt) => Err(fault_of(halt)),
    }
}

// The fault that the call answers. The work never stops for want of something that fits.
fn fault_of(halt: Halt) -> ExpandFault
    requires { halt ≡ Stopped → ⊥ }
    ensures { (o : Spending Pieces) → Halts o halt → IsWrittenOut o (Err result) }
{
    match halt {
        Halt::Long => ExpandFault::Long { units: 100_001 },
        Halt::Past(fault) => past(fault),
        Halt::Stopped => unreachable!(),
    }
}

// A term is past a limit, or memory ran out.
fn past(fault: TermFault) -> ExpandFault
    ensures { (o : Spending Pieces) → Names fault (past_of o) → IsWrittenOut o (Err result) }
{
    match fault {
        TermFault::TooBig { nodes } => ExpandFault::TooBig { nodes },
        TermFault::TooDeep { depth } => ExpandFault::TooDeep { depth },
        TermFault::Memory => ExpandFault::Memory,
    }
}

// The same, or why the work ends before its end.
fn written<'x>(
    alloc: Global,
    theory: &'x Theory,
    proof: &'x Proof,
    lines: &Table,
    goal: u32,
    entries: &[Entry],
) -> Result<Vec<Row>, Halt>
    requires lines { lines.now ≡ proof.now.table.items }
    requires for_theory { ProofFor theory.now (plain_proof proof.now) }
    requires plain { IsPlain (plain_proof proof.now) }
    requires accepted { Accepted theory.now (plain_proof proof.now) }
    requires few { AreFew entries.now }
    ensures { WritesOut (worked_off unit_limit theory.now (plain_proof proof.now) goal
        (plain_entries entries.now)) result }
{
    let ground = Ground {
        alloc,
        theory,
        table: proof.table.as_slice(),
        gamma: &proof.gamma,
    };
    let book = ground.read(proof, lines)?;
    let frame = Frame {
        alloc,
        theory,
        table: proof.table.as_slice(),
        gamma: &proof.gamma,
        book: &book,
        lists: proof.certificates.as_slice(),
    };
    write_proof(&frame, proof, goal, entries)
}

// The derivation from the proof whose table, special set, certificates and book these are.
fn write_proof(
    frame: &Frame<'_, '_>,
    proof: &Proof,
    goal: u32,
    entries: &[Entry],
) -> Result<Vec<Row>, Halt>
    requires table { frame.now.table.now ≡ proof.now.table.items }
    requires gamma { frame.now.gamma.now ≡ proof.now.gamma }
    requires lists { frame.now.lists.now ≡ proof.now.certificates.items }
    requires book { IsBook frame.now.theory.now (plain_proof proof.now) frame.now.book.now }
    requires few { AreFew entries.now }
    ensures { WritesOut (worked_off unit_limit frame.now.theory.now (plain_proof proof.now) goal
        (plain_entries entries.now)) result }
{
    let _ = proof;
    write_out(frame, goal, entries)
}
