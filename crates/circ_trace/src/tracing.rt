//! The search for a proof with the lines of its turns.
ghost use Rattle.std.specs.Prelude.{◌≡◌, [], List, map, IfOk};
ghost use Rattle.circ_theory.specs.Goal.{Goal as TheGoal};
ghost use Rattle.circ_contexts.specs.Candidates.{plain_lists};
ghost use Rattle.circ_plain_search.specs.Greatest.{GreatestSpecialSet};
ghost use Rattle.circ_plain_search.specs.Numbering.{Proved};
ghost use Rattle.circ_conditional_search.specs.ConditionalSearch.{CanAllBeSearched};
ghost use Rattle.circ_plain_search.specs.Search.{start};
ghost use Rattle.circ_proof.specs.Proof.{Proof as PlainProof, ProofFor};
ghost use Rattle.circ_turn.specs.Standing.{standing, conduct_with, plain_limits, IsStart};
ghost use Rattle.circ_search.specs.Plain.{plain_found};
ghost use Rattle.circ_found.specs.Answering.{found_ending};
ghost use Rattle.circ_status.specs.Ending.{plain_ending};
ghost use Rattle.circ_trace.specs.Tracing.{after_lines, TraceEnds};

use crate::turns::run_turns;
use circ_attempt::laws::proved_is_accepted;
use circ_contexts::special_contexts;
use circ_found::found_ending;
use circ_rewrite::Trace;
use circ_search::{Found, Limits, found_at};
use circ_special::Gamma;
use circ_status::Ending;
use circ_theory::{Goal, Theory};
use circ_turn::{Search, State};
use std::alloc::{AllocError, Global};

/// How the search for a proof of these blocks of goals ends, with the lines of its turns before the
/// text of the answer. Nothing is to be stored.
pub fn trace<'a>(
    alloc: Global,
    theory: &Theory,
    blocks: &[Vec<Goal>],
    limits: &Limits,
) -> Result<Ending<'a>, AllocError>
    requires searchable { CanAllBeSearched theory.now (map (λ b. b.items) blocks.now) }
    ensures { IfOk result (λ e. TraceEnds theory.now (conduct_with limits.now)
        (map (λ b. b.items) blocks.now) (plain_ending e)) }
{
    let (gamma, traces) = special_contexts(alloc, theory, limits.steps)?;
    trace_with(alloc, theory, blocks, limits, gamma, traces)
}

// The same with the special set and the traces of its start terms.
fn trace_with<'a>(
    alloc: Global,
    theory: &Theory,
    blocks: &[Vec<Goal>],
    limits: &Limits,
    gamma: Gamma,
    traces: Vec<Vec<Trace>>,
) -> Result<Ending<'a>, AllocError>
    requires searchable { CanAllBeSearched theory.now (map (λ b. b.items) blocks.now) }
    requires greatest { GreatestSpecialSet theory.now limits.now.steps gamma
        (plain_lists traces.items) }
    ensures { IfOk result (λ e. TraceEnds theory.now (conduct_with limits.now)
        (map (λ b. b.items) blocks.now) (plain_ending e)) }
{
    let mut state = State::start(alloc, blocks, limits.steps)?;
    let traced = trace_from(alloc, theory, limits, gamma, traces, &mut state);
    drop(state);
    traced
}

// The same from the start of the search.
fn trace_from<'a>(
    alloc: Global,
    theory: &Theory,
    limits: &Limits,
    gamma: Gamma,
    traces: Vec<Vec<Trace>>,
    state: &mut State<'_>,
) -> Result<Ending<'a>, AllocError>
    requires start { IsStart theory.now (plain_limits limits.now) (standing state.old) }
    requires greatest { GreatestSpecialSet theory.now limits.now.steps gamma
        (plain_lists traces.items) }
    ensures { (blocks : List (List TheGoal))
        → standing state.old ≡ start (plain_limits limits.now) blocks
        → IfOk result (λ e. TraceEnds theory.now (conduct_with limits.now) blocks
        (plain_ending e)) }
{
    theory.known();
    proved_is_accepted();
    let search = Search {
        alloc,
        theory,
        gamma: &gamma,
        limits: *limits,
    };
    let mut lines = Vec::new(alloc);
    let end = run_turns(&search, state, &mut lines);
    let found = found_at(alloc, gamma, traces, state, end)?;
    answer(alloc, theory, &found, lines)
}

// The lines come before what is answered to what is found.
fn answer<'a>(
    alloc: Global,
    theory: &Theory,
    found: &Found,
    lines: Vec<u8>,
) -> Result<Ending<'a>, AllocError>
    requires { (p : PlainProof) → plain_found found.now ≡ Proved p → ProofFor theory.now p }
    ensures { IfOk result (λ e. plain_ending e ≡ after_lines lines.items
        (found_ending theory.now.signature [] (plain_found found.now))) }
{
    let Ending {
        status,
        text: answer,
        stored: _stored,
    } = found_ending(alloc, theory, found, "")?;
    let mut text = lines;
    text.extend_from_slice(answer.as_slice())?;
    Ok(Ending {
        status,
        text,
        stored: None,
    })
}
