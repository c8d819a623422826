//! What a proof comes to.
ghost use Rattle.std.specs.Prelude.{◌≡◌, map, IfOk};
ghost use Rattle.circ_theory.specs.Theory.{Theory as PlainTheory};
ghost use Rattle.circ_proof.specs.Proof.{Proof as PlainProof, ProofFor};
ghost use Rattle.circ_proof.specs.Parts.{parts_of};
ghost use Rattle.circ_proof.specs.Accepted.{Accepted, Derives};
ghost use Rattle.circ_proof.specs.PlainProof.{plain_proof};
ghost use Rattle.circ_check.specs.Deciding.{Decides, GoalsBehave, DerivedBehave, plain_list};
ghost use Rattle.circ_check.specs.Watching.{Stands};

use crate::checker::Checker;
use circ_proof::Proof;
use circ_table::Table;
use circ_theory::{Goal, Theory};
use std::alloc::{AllocError, Global};

/// What a proof comes to.
#[derive(Clone, Copy, PartialEq, Eq)]
pub enum Verdict {
    /// Every certificate certifies what is due, and every step is an instance of its rule.
    Accepted,
    /// The first that does not. Certificates are counted from 1, and the steps of all blocks follow
    /// in one count.
    Refused { step: u64 },
}

/// Whether every certificate of the proof certifies what is due, and every step is an instance of
/// its rule, or the first that fails. If none does, each goal of each block behaves.
pub fn check(alloc: Global, theory: &Theory, proof: &Proof) -> Result<Verdict, AllocError>
    requires { ProofFor theory.now (plain_proof proof.now) }
    ensures exact { IfOk result (Decides theory.now (plain_proof proof.now)) }
    ensures sound { IfOk result (GoalsBehave theory.now (plain_proof proof.now)) }
{
    let mut checker = Checker::new(alloc, theory);
    checker.take_proof(proof)?;
    Ok(verdict_of(&checker))
}

/// The same by the lines of the proof's table: a line costs a look-up for each of its arguments,
/// however large its term is.
pub fn check_by_table(
    alloc: Global,
    theory: &Theory,
    proof: &Proof,
    table: &Table,
) -> Result<Verdict, AllocError>
    requires fits { ProofFor theory.now (plain_proof proof.now) }
    requires table { table.now ≡ proof.now.table.items }
    ensures exact { IfOk result (Decides theory.now (plain_proof proof.now)) }
    ensures sound { IfOk result (GoalsBehave theory.now (plain_proof proof.now)) }
{
    let mut checker = Checker::new(alloc, theory);
    checker.take_by_table(proof, table)?;
    Ok(verdict_of(&checker))
}

// What the proof comes to that the checker has taken.
fn verdict_of(checker: &Checker<'_>) -> Verdict
    ensures exact { (th : PlainTheory) (p : PlainProof) → ProofFor th p →
        Stands th (parts_of p) checker.now → Decides th p result }
    ensures sound { (th : PlainTheory) (p : PlainProof) → ProofFor th p →
        Stands th (parts_of p) checker.now → GoalsBehave th p result }
{
    match checker.failed() {
        None => Verdict::Accepted,
        Some(step) => Verdict::Refused { step },
    }
}

/// The goals that each block's Derive steps appended to the hypotheses, in order, of an accepted
/// proof. Each of them behaves.
pub fn derived(alloc: Global, theory: &Theory, proof: &Proof) -> Result<Vec<Vec<Goal>>, AllocError>
    requires fits { ProofFor theory.now (plain_proof proof.now) }
    requires accepted { Accepted theory.now (plain_proof proof.now) }
    ensures exact { IfOk result (λ v.
        Derives theory.now (plain_proof proof.now) (map plain_list v.items)) }
    ensures sound { IfOk result (λ v. DerivedBehave theory.now (map plain_list v.items)) }
{
    theory.known();
    let mut checker = Checker::new(alloc, theory);
    checker.take_proof(proof)?;
    Ok(checker.take_derived())
}
