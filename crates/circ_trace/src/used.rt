//! The hypotheses that lemma passes, links and moves use.
ghost use Rattle.std.specs.Prelude.{◌≡◌, ◌++◌, OnOk};
ghost use Rattle.circ_join.specs.Uses.{plain_uses};
ghost use Rattle.circ_moves.specs.Plain.{plain_move, plain_moves};
ghost use Rattle.circ_proof.specs.Plain.{plain_link, plain_links};
ghost use Rattle.circ_trace.specs.Used.{numbers_of, link_hypotheses, link_hypothesis};
ghost use Rattle.circ_trace.specs.Used.{move_hypotheses, move_hypothesis};

use circ_join::HypothesisUse;
use circ_moves::Move;
use circ_proof::Link;
use circ_term::Term;
use std::alloc::AllocError;

/// Appends the numbers of the hypotheses that are used.
pub(crate) fn push_numbers(numbers: &mut Vec<u32>, uses: &[HypothesisUse]) -> Result<(), AllocError>
    ensures { OnOk result (numbers.new.items
        ≡ numbers.old.items ++ numbers_of (plain_uses uses.now)) }
{
    for one in uses {
        numbers.push(one.number)?;
    }
    Ok(())
}

/// Appends the numbers of the hypotheses that links use.
pub(crate) fn push_links(numbers: &mut Vec<u32>, links: &[Link<Term>]) -> Result<(), AllocError>
    ensures { OnOk result (numbers.new.items
        ≡ numbers.old.items ++ link_hypotheses (plain_links links.now)) }
{
    for link in links {
        push_link(numbers, link)?;
    }
    Ok(())
}

fn push_link(numbers: &mut Vec<u32>, link: &Link<Term>) -> Result<(), AllocError>
    ensures { OnOk result (numbers.new.items
        ≡ numbers.old.items ++ link_hypothesis (plain_link link.now)) }
{
    match link {
        Link::Hypothesis { number, .. } => {
            numbers.push(*number)?;
            Ok(())
        }
        Link::Equation { .. } => Ok(()),
        Link::Assumption { .. } => Ok(()),
        Link::Content { .. } => Ok(()),
    }
}

/// Appends the numbers of the hypotheses that moves use.
pub(crate) fn push_moves(numbers: &mut Vec<u32>, moves: &[Move]) -> Result<(), AllocError>
    ensures { OnOk result (numbers.new.items
        ≡ numbers.old.items ++ move_hypotheses (plain_moves moves.now)) }
{
    for one in moves {
        push_move(numbers, one)?;
    }
    Ok(())
}

fn push_move(numbers: &mut Vec<u32>, one: &Move) -> Result<(), AllocError>
    ensures { OnOk result (numbers.new.items
        ≡ numbers.old.items ++ move_hypothesis (plain_move one.now)) }
{
    match one {
        Move::Using { hypothesis } => {
            numbers.push(hypothesis.number)?;
            Ok(())
        }
        Move::Regrouping { .. } => Ok(()),
    }
}
