//! The command `expand`: a derivation without hypotheses is written out from a proof file.
ghost use Rattle.std.specs.Prelude.{◌≡◌, ◌+◌, IfOk, IfErr, Some, map};
ghost use Rattle.std.specs.List.{slice_get};
ghost use Rattle.circ_outer.specs.Shelf.{ShelfFrame};
ghost use Rattle.circ_term.specs.Tree.{sort_of};
ghost use Rattle.circ_proof.specs.Accepted.{Accepted};
ghost use Rattle.circ_proof.specs.PlainProof.{plain_proof};
ghost use Rattle.circ_proof.specs.Proof.{ProofFor, IsPlain};
ghost use Rattle.circ_entry.specs.Entries.{FitsWritten};
ghost use Rattle.circ_entry.specs.Plain.{plain_entries};
ghost use Rattle.circ_expand.specs.Rows.{plain_row};
ghost use Rattle.circ_expand.specs.Answers.{LeadsOnGoal};
ghost use Rattle.circ_expand.specs.Expand.{expansion};
ghost use Rattle.circ_expand.specs.Goals.{all_goals, FitGoal};
ghost use Rattle.circ_expand.specs.Pieces.{Pieces};
ghost use Rattle.circ_files.specs.Quiet.{IsQuietCall};
ghost use Rattle.circ_reports.specs.Expand.{by_goal, by_units, expanded, Writes, WritesNone};
ghost use Rattle.circ_reports.specs.Expand.{Expands, GivesNone, IsExpanded, RefusesExpand};
ghost use Rattle.circ_reports.specs.Expand.{ShowsDerivation, expanded_text, fault_answer};
ghost use Rattle.circ_reports.specs.Expand.{number_before, rows_text};

use crate::fresh::fresh_experiment;
use crate::proof_file::take_plain_proof;
use crate::rows::rows_text;
use circ_check::{Verdict, check_by_table};
use circ_entry::Entry;
use circ_expand::{ExpandFault, Row, expand as write_out, goal_misfit, goal_numbered};
use circ_files::take_theory;
use circ_outer::Shelf;
use circ_proof::Proof;
use circ_status::Status;
use circ_table::Table;
use circ_theory::{Goal, Theory};
use std::alloc::Global;

/// The derivation for an experiment on the goal of this number, counted from 1, without hypotheses,
/// or the answer in its place. The entries are the numbers of their derivatives.
pub fn expand<S: Shelf>(
    alloc: Global,
    shelf: &mut S,
    theory: &str,
    proof: &str,
    goal: u32,
    derivatives: &[u32],
) -> Result<Vec<u8>, Status>
    ensures expanded { IfOk result (λ v. IsExpanded theory.now proof.now goal derivatives.now
        v.items (S.state shelf.old)) }
    ensures refused { IfErr result (RefusesExpand theory.now proof.now goal derivatives.now
        (S.state shelf.old) (S.state shelf.new)) }
    ensures quiet { IsQuietCall (S.state shelf.old) (S.state shelf.new) result }
    ensures frame { ShelfFrame (S.state shelf.old) (S.state shelf.new) }
{
    let theory = match take_theory(alloc, shelf, theory) {
        Ok(theory) => theory,
        Err(status) => return Err(status),
    };
    let taken = match take_plain_proof(alloc, shelf, &theory, proof) {
        Ok(taken) => taken,
        Err(status) => return Err(status),
    };
    expand_proof(
        alloc,
        &theory,
        &taken.proof,
        &taken.table,
        goal,
        derivatives,
    )
}

/// The same of a proof without conditions.
#[tactic(auto, using(crate::proofs::ExpandEnds::refusing))]
fn expand_proof(
    alloc: Global,
    theory: &Theory,
    proof: &Proof,
    table: &Table,
    goal: u32,
    derivatives: &[u32],
) -> Result<Vec<u8>, Status>
    requires fits { ProofFor theory.now (plain_proof proof.now) }
    requires plain { IsPlain (plain_proof proof.now) }
    requires table { table.now ≡ proof.now.table.items }
    ensures expands { IfOk result (λ v.
        Expands theory.now (plain_proof proof.now) goal derivatives.now v.items) }
    ensures none { IfErr result
        (GivesNone theory.now (plain_proof proof.now) goal derivatives.now) }
{
    match check_by_table(alloc, theory, proof, table)? {
        Verdict::Accepted => expand_accepted(alloc, theory, proof, table, goal, derivatives),
        Verdict::Refused { step } => Err(Status::Refused { step }),
    }
}

/// The same of a proof that is accepted.
fn expand_accepted(
    alloc: Global,
    theory: &Theory,
    proof: &Proof,
    table: &Table,
    goal: u32,
    derivatives: &[u32],
) -> Result<Vec<u8>, Status>
    requires fits { ProofFor theory.now (plain_proof proof.now) }
    requires plain { IsPlain (plain_proof proof.now) }
    requires table { table.now ≡ proof.now.table.items }
    requires accepted { Accepted theory.now (plain_proof proof.now) }
    ensures writes { IfOk result (λ v. Writes theory.now
        (expanded theory.now (plain_proof proof.now) goal derivatives.now) v.items) }
    ensures shows { IfOk result (λ v.
        ShowsDerivation theory.now (plain_proof proof.now) goal derivatives.now v.items) }
    ensures none { IfErr result
        (WritesNone (expanded theory.now (plain_proof proof.now) goal derivatives.now)) }
{
    let Some(number) = number_before(goal) else {
        return Err(Status::Misfit { entry: 0 });
    };
    expand_goal(alloc, theory, proof, table, number, derivatives)
}

/// The number counted from 0, of one that counts from 1.
fn number_before(number: u32) -> Option<u32>
    ensures { result ≡ number_before number }
{
    if number == 0 {
        return None;
    }
    Some(number - 1)
}

/// The same of the goal of this number, counted from 0.
#[tactic(auto, using(crate::proofs::ExpandEnds::refusing))]
fn expand_goal(
    alloc: Global,
    theory: &Theory,
    proof: &Proof,
    table: &Table,
    number: u32,
    derivatives: &[u32],
) -> Result<Vec<u8>, Status>
    requires fits { ProofFor theory.now (plain_proof proof.now) }
    requires plain { IsPlain (plain_proof proof.now) }
    requires table { table.now ≡ proof.now.table.items }
    requires accepted { Accepted theory.now (plain_proof proof.now) }
    ensures writes { IfOk result (λ v. Writes theory.now (by_goal theory.now
        (plain_proof proof.now) number derivatives.now
        (slice_get (all_goals (plain_proof proof.now).blocks) number)) v.items) }
    ensures shows { IfOk result (λ v.
        ShowsDerivation theory.now (plain_proof proof.now) (number + 1) derivatives.now v.items) }
    ensures none { IfErr result (WritesNone (by_goal theory.now (plain_proof proof.now) number
        derivatives.now (slice_get (all_goals (plain_proof proof.now).blocks) number))) }
{
    let Some(goal) = goal_numbered(proof, number) else {
        return Err(Status::Misfit { entry: 0 });
    };
    let entries = match fresh_experiment(alloc, theory, goal, derivatives) {
        Ok(entries) => entries,
        Err(_) => return Err(Status::Memory),
    };
    let entries = entries.as_slice();
    if let Some(entry) = goal_misfit(theory, proof, number, entries) {
        return Err(Status::Misfit {
            entry: entry as u64,
        });
    }
    derivation(alloc, theory, proof, table, number, goal, entries)
}

/// The same for an experiment on it that fits.
#[tactic(auto, using(crate::proofs::ExpandEnds::refusing))]
fn derivation(
    alloc: Global,
    theory: &Theory,
    proof: &Proof,
    table: &Table,
    number: u32,
    goal: &Goal,
    entries: &[Entry],
) -> Result<Vec<u8>, Status>
    requires fits { ProofFor theory.now (plain_proof proof.now) }
    requires plain { IsPlain (plain_proof proof.now) }
    requires table { table.now ≡ proof.now.table.items }
    requires accepted { Accepted theory.now (plain_proof proof.now) }
    requires experiment { FitGoal theory.now (plain_proof proof.now) number
        (plain_entries entries.now) }
    requires goal { slice_get (all_goals (plain_proof proof.now).blocks) number ≡ Some goal.now }
    ensures writes { IfOk result (λ v. Writes theory.now (by_units (plain_entries entries.now)
        goal.now (expansion 100000 theory.now (plain_proof proof.now) number
        (plain_entries entries.now))) v.items) }
    ensures shows { IfOk result (λ v. (xs : Pieces) ×
        LeadsOnGoal theory.now xs (plain_entries entries.now) goal.now ×
        (v.items ≡ expanded_text theory.now (plain_entries entries.now) goal.now xs)) }
    ensures none { IfErr result (WritesNone (by_units (plain_entries entries.now) goal.now
        (expansion 100000 theory.now (plain_proof proof.now) number
        (plain_entries entries.now)))) }
{
    match write_out(alloc, theory, proof, table, number, entries) {
        Ok(rows) => text_of(alloc, theory, entries, goal, rows.as_slice()),
        Err(fault) => Err(none_written(fault)),
    }
}

/// The text of a derivation, or want of memory.
fn text_of(
    alloc: Global,
    theory: &Theory,
    entries: &[Entry],
    goal: &Goal,
    rows: &[Row],
) -> Result<Vec<u8>, Status>
    requires left { FitsWritten theory.now (plain_entries entries.now) (sort_of goal.now.left) }
    requires right { FitsWritten theory.now (plain_entries entries.now) (sort_of goal.now.right) }
    ensures text { IfOk result (λ v. v.items ≡ rows_text theory.now (plain_entries entries.now)
        goal.now (map plain_row rows.now)) }
    ensures memory { IfErr result (λ s. s ≡ Status.Memory) }
{
    Ok(rows_text(alloc, theory, entries, goal, rows)?)
}

/// The answer to a fault.
fn none_written(fault: ExpandFault) -> Status
    ensures { result ≡ fault_answer fault }
{
    match fault {
        ExpandFault::Long { units } => Status::Expansion { units },
        ExpandFault::TooBig { nodes } => Status::TooBig { nodes },
        ExpandFault::TooDeep { depth } => Status::TooDeep { depth },
        ExpandFault::Memory => Status::Memory,
    }
}
