//! The search for a proof.
ghost use Rattle.std.specs.Prelude.{◌≡◌, List, Some, [], map, IfOk};
ghost use Rattle.circ_theory.specs.Goal.{Goal as TheGoal};
ghost use Rattle.circ_rewrite.specs.Links.{link_of};
ghost use Rattle.circ_contexts.specs.Candidates.{plain_lists};
ghost use Rattle.circ_plain_search.specs.Greatest.{GreatestSpecialSet};
ghost use Rattle.circ_proof.specs.PlainProof.{plain_proof};
ghost use Rattle.circ_plain_search.specs.Numbering.{Special, needed};
ghost use Rattle.circ_plain_search.specs.PlainSearch.{IsProofOf};
ghost use Rattle.circ_plain_search.specs.Search.{All_done, Ending, start};
ghost use Rattle.circ_attempt.specs.RewritingSearch.{RewritingSearch};
ghost use Rattle.circ_conditional_search.specs.ConditionalSearch.{CanAllBeSearched};
ghost use Rattle.circ_conditional_search.specs.Versions.{versioned_found, versioned_proof};
ghost use Rattle.circ_turn.specs.Standing.{standing, IsStart};
ghost use Rattle.circ_numbering.specs.Asking.{GivesProof};
ghost use Rattle.circ_numbering.specs.Plain.{plain_term_blocks, plain_term_certificates};
ghost use Rattle.circ_search.specs.Plain.{plain_found, plain_limits, special_with, IfProved};
ghost use Rattle.circ_search.specs.Plain.{ending_of, ending_at, conduct_with};

use crate::found::Found;
use crate::versions::version_of;
use circ_attempt::laws::proved_is_accepted;
use circ_contexts::special_contexts;
use circ_numbering::{NumberFault, TermBlock, numbered};
use circ_proof::{Link, MOST_TERMS, Proof};
use circ_rewrite::{Trace, links_of};
use circ_rewriting_turn::run;
use circ_special::Gamma;
use circ_term::Term;
use circ_theory::{Goal, Theory};
use circ_turn::{End, Limits, Search, State};
use std::alloc::{AllocError, Global};

// How many terms a table has that has one too many.
const LONG_TABLE_TERMS: u64 = MOST_TERMS as u64 + 1;

/// Searches a proof of the blocks of goals, each with the goals of those before it as lemmas,
/// within the limits.
pub fn prove(
    alloc: Global,
    theory: &Theory,
    blocks: &[Vec<Goal>],
    limits: &Limits,
) -> Result<Found, AllocError>
    requires searchable { CanAllBeSearched theory.now (map (λ b. b.items) blocks.now) }
    ensures exact { IfOk result (λ f. RewritingSearch theory.now
        (map (λ b. b.items) blocks.now) (conduct_with limits.now) (plain_found f)) }
    ensures accepted { IfOk result (λ f. IfProved f
        (IsProofOf theory.now (map (λ b. b.items) blocks.now))) }
{
    theory.known();
    proved_is_accepted();
    let (gamma, traces) = special_contexts(alloc, theory, limits.steps)?;
    search_with(alloc, theory, blocks, limits, gamma, traces)
}

// The search with the special set and the traces of its start terms.
fn search_with(
    alloc: Global,
    theory: &Theory,
    blocks: &[Vec<Goal>],
    limits: &Limits,
    gamma: Gamma,
    traces: Vec<Vec<Trace>>,
) -> Result<Found, AllocError>
    requires searchable { CanAllBeSearched theory.now (map (λ b. b.items) blocks.now) }
    requires greatest { GreatestSpecialSet theory.now limits.now.steps gamma
        (plain_lists traces.items) }
    ensures exact { IfOk result (λ f. RewritingSearch theory.now
        (map (λ b. b.items) blocks.now) (conduct_with limits.now) (plain_found f)) }
{
    let mut state = State::start(alloc, blocks, limits.steps)?;
    let found = search_from(alloc, theory, limits, gamma, traces, &mut state);
    drop(state);
    found
}

// The same from the start of the search.
fn search_from(
    alloc: Global,
    theory: &Theory,
    limits: &Limits,
    gamma: Gamma,
    traces: Vec<Vec<Trace>>,
    state: &mut State<'_>,
) -> Result<Found, AllocError>
    requires start { IsStart theory.now (plain_limits limits.now) (standing state.old) }
    requires greatest { GreatestSpecialSet theory.now limits.now.steps gamma
        (plain_lists traces.items) }
    ensures { (blocks : List (List TheGoal))
        → standing state.old ≡ start (plain_limits limits.now) blocks
        → IfOk result (λ f. RewritingSearch theory.now blocks (conduct_with limits.now)
        (plain_found f)) }
{
    let search = Search {
        alloc,
        theory,
        gamma: &gamma,
        limits: *limits,
    };
    let end = run(&search, state);
    found_at(alloc, gamma, traces, state, end)
}

/// What is found where a run of the search ends so that has come to this state.
pub fn found_at(
    alloc: Global,
    gamma: Gamma,
    traces: Vec<Vec<Trace>>,
    state: &State<'_>,
    end: Result<(), End>,
) -> Result<Found, AllocError>
    ensures { IfOk result (λ f. (e : Ending) × (ending_at (standing state.now) end ≡ Some e)
        × (plain_found f
        ≡ versioned_found (special_with gamma (plain_lists traces.items)) e)) }
{
    match end {
        Ok(()) => found(alloc, gamma, traces, state),
        Err(end) => ended(end),
    }
}

// What is found where a search ends before every goal is done.
fn ended(end: End) -> Result<Found, AllocError>
    ensures { (s : Special) → IfOk result (λ f. (x : Ending) × (ending_of end ≡ Some x)
        × (plain_found f ≡ versioned_found s x)) }
{
    match end {
        End::Stuck {
            block,
            goal,
            left,
            right,
            assumptions,
        } => Ok(Found::Stuck {
            block,
            goal,
            left,
            right,
            assumptions,
        }),
        End::Spent {
            rewrites,
            derives,
            steps,
        } => Ok(Found::Spent {
            rewrites,
            derives,
            steps,
        }),
        End::TooBig { nodes } => Ok(Found::TooBig { nodes }),
        End::TooDeep { depth } => Ok(Found::TooDeep { depth }),
        End::Memory => Err(AllocError),
    }
}

// What is found where every goal is done.
fn found(
    alloc: Global,
    gamma: Gamma,
    traces: Vec<Vec<Trace>>,
    state: &State<'_>,
) -> Result<Found, AllocError>
    ensures { IfOk result (λ f. plain_found f
        ≡ versioned_found (special_with gamma (plain_lists traces.items))
        (All_done (plain_term_blocks state.now.finished.items) state.now.derives state.now.made
        state.now.deep)) }
{
    match needed_proof(alloc, gamma, traces, state) {
        Ok(proof) => Ok(Found::Proved { proof }),
        Err(NumberFault::LongTable) => Ok(Found::LongTable {
            terms: LONG_TABLE_TERMS,
        }),
        Err(NumberFault::Memory) => Err(AllocError),
    }
}

// The proof. It has the special set with its certificates where the search has used a hidden
// hypothesis at a path that is not empty, and no places otherwise.
fn needed_proof(
    alloc: Global,
    gamma: Gamma,
    traces: Vec<Vec<Trace>>,
    state: &State<'_>,
) -> Result<Proof, NumberFault>
    ensures { GivesProof plain_proof (versioned_proof
        (needed state.now.deep (special_with gamma (plain_lists traces.items))).places
        (needed state.now.deep (special_with gamma (plain_lists traces.items))).certificates
        (plain_term_blocks state.now.finished.items)) result }
{
    if state.deep {
        let certificates = certificates(alloc, traces)?;
        versioned(
            alloc,
            gamma,
            certificates.as_slice(),
            state.finished.as_slice(),
        )
    } else {
        versioned(alloc, Gamma::empty(alloc), &[], state.finished.as_slice())
    }
}

// The proof of these blocks, with this special set and its certificates, in its version.
fn versioned(
    alloc: Global,
    gamma: Gamma,
    certificates: &[Vec<Link<Term>>],
    blocks: &[TermBlock],
) -> Result<Proof, NumberFault>
    ensures { GivesProof plain_proof (versioned_proof gamma
        (plain_term_certificates certificates.now) (plain_term_blocks blocks.now)) result }
{
    match numbered(alloc, gamma, certificates, blocks) {
        Err(fault) => Err(fault),
        Ok(proof) => {
            let mut proof = proof;
            proof.version = version_of(blocks, certificates);
            Ok(proof)
        }
    }
}

fn certificates(alloc: Global, traces: Vec<Vec<Trace>>) -> Result<Vec<Vec<Link<Term>>>, AllocError>
    ensures { IfOk result (λ v. plain_term_certificates v.items
        ≡ map (map link_of) (plain_lists traces.items)) }
{
    let mut certificates = Vec::with_capacity(alloc, traces.len())?;
    for links in traces {
        certificates.push(links_of(alloc, links)?)?;
    }
    Ok(certificates)
}
