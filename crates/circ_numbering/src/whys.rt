//! Reasons and steps, with the numbers of their terms in a table.
ghost use Rattle.std.specs.Prelude.{◌≡◌, flat_map};
ghost use Rattle.circ_proof.specs.Plain.{plain_why, plain_whys, map_why, map_whys};
ghost use Rattle.circ_proof.specs.Table.{number_in};
ghost use Rattle.circ_proof.specs.PlainProof.{plain_step, plain_steps};
ghost use Rattle.circ_proof.specs.Rules.{map_step};
ghost use Rattle.circ_plain_search.specs.Numbering.{why_terms, whys_terms, step_terms};
ghost use Rattle.circ_plain_search.specs.Numbering.{numbered_steps};
ghost use Rattle.circ_numbering.specs.Asking.{Asks};

use crate::asking::{chain, number};
use crate::fault::NumberFault;
use circ_proof::{Step, Why};
use circ_replay::TableBuilder;
use circ_term::Term;
use std::alloc::Global;

/// Steps with numbers.
pub(crate) fn steps(
    alloc: Global,
    table: &mut TableBuilder,
    recorded: &[Step<Term>],
) -> Result<Vec<Step>, NumberFault>
    ensures { Asks table.old table.new (flat_map step_terms (plain_steps recorded.now))
        (λ t v. plain_steps v.items
        ≡ numbered_steps t (plain_steps recorded.now)) result }
{
    let mut steps = Vec::with_capacity(alloc, recorded.len())?;
    for one in recorded {
        match step(alloc, table, one) {
            Ok(step) => steps.push(step)?,
            Err(fault) => return Err(fault),
        }
    }
    Ok(steps)
}

fn step(alloc: Global, table: &mut TableBuilder, recorded: &Step<Term>) -> Result<Step, NumberFault>
    ensures { Asks table.old table.new (step_terms (plain_step recorded.now))
        (λ t x. plain_step x ≡ map_step (number_in t) (plain_step recorded.now)) result }
{
    match recorded {
        Step::Simplify { chain: recorded } => match chain(alloc, table, recorded) {
            Ok(chain) => Ok(Step::Simplify { chain }),
            Err(fault) => Err(fault),
        },
        Step::Reduce { why: recorded } => match why(alloc, table, recorded) {
            Ok(why) => Ok(Step::Reduce { why }),
            Err(fault) => Err(fault),
        },
        Step::Derive => Ok(Step::Derive),
        Step::Cases { term } => match number(table, term) {
            Ok(term) => Ok(Step::Cases { term }),
            Err(fault) => Err(fault),
        },
        Step::Done => Ok(Step::Done),
    }
}

// A reason, with those inside it.
#[cycle(why)]
fn why(alloc: Global, table: &mut TableBuilder, recorded: &Why<Term>) -> Result<Why, NumberFault>
    ensures { Asks table.old table.new (why_terms (plain_why recorded.now))
        (λ t x. plain_why x ≡ map_why (number_in t) (plain_why recorded.now)) result }
{
    match recorded {
        Why::Same { chain: recorded } => match chain(alloc, table, recorded) {
            Ok(chain) => Ok(Why::Same { chain }),
            Err(fault) => Err(fault),
        },
        Why::Split {
            chain: recorded,
            term,
            whys: cases,
        } => {
            let chain = match chain(alloc, table, recorded) {
                Ok(chain) => chain,
                Err(fault) => return Err(fault),
            };
            let term = match number(table, term) {
                Ok(term) => term,
                Err(fault) => return Err(fault),
            };
            match whys(alloc, table, cases.as_slice()) {
                Ok(whys) => Ok(Why::Split { chain, term, whys }),
                Err(fault) => Err(fault),
            }
        }
    }
}

#[cycle(why)]
fn whys(
    alloc: Global,
    table: &mut TableBuilder,
    recorded: &[Why<Term>],
) -> Result<Vec<Why>, NumberFault>
    ensures { Asks table.old table.new (whys_terms (plain_whys recorded.now))
        (λ t v. plain_whys v.items
        ≡ map_whys (number_in t) (plain_whys recorded.now)) result }
{
    let mut whys = Vec::with_capacity(alloc, recorded.len())?;
    for one in recorded {
        match why(alloc, table, one) {
            Ok(why) => whys.push(why)?,
            Err(fault) => return Err(fault),
        }
    }
    Ok(whys)
}
