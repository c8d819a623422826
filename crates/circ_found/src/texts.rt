//! The texts of what a search finds.
ghost use Rattle.std.specs.Prelude.{◌≡◌, ◌≤◌, ◌++◌, map, IfOk, OnOk, codes};
ghost use Rattle.circ_proof.specs.PlainProof.{plain_block, plain_proof};
ghost use Rattle.circ_proof.specs.Proof.{steps_in};
ghost use Rattle.circ_theory.specs.Pairs.{plain_pair};
ghost use Rattle.circ_show.specs.GoalsText.{pair_line, pair_lines, all_goal_lines};
ghost use Rattle.circ_found.specs.Answering.{counts_text, proved_text};
ghost use Rattle.circ_found.specs.Answering.{derives_in};
ghost use Rattle.circ_found.specs.Answering.{side_line, stuck_text};

use crate::counts::{derives_in, steps_in};
use circ_mixfix::{print, print_pair};
use circ_proof::{Block, Proof};
use circ_show::goals_text;
use circ_status::{push_counted, push_numbered};
use circ_term::Term;
use circ_theory::{Pair, Theory};
use std::alloc::{AllocError, Global};

/// The report of a proof that was found.
pub(crate) fn proved_text(
    alloc: Global,
    theory: &Theory,
    proof: &Proof,
) -> Result<Vec<u8>, AllocError>
    requires few { steps_in (map plain_block proof.now.blocks.items) ≤ 100000 }
    ensures { IfOk result (λ v.
        v.items ≡ proved_text theory.now.signature (plain_proof proof.now)) }
{
    let blocks = proof.blocks.as_slice();
    let mut out = Vec::from_slice(alloc, b"proved\n")?;
    put_blocks(alloc, theory, blocks, &mut out)?;
    push_counts(&mut out, blocks)?;
    Ok(out)
}

/// Appends the lines of the blocks' goals.
fn put_blocks(
    alloc: Global,
    theory: &Theory,
    blocks: &[Block],
    out: &mut Vec<u8>,
) -> Result<(), AllocError>
    ensures { OnOk result (out.new.items ≡ out.old.items ++ all_goal_lines theory.now.signature
        (map (λ b. b.goals) (map plain_block blocks.now))) }
{
    for block in blocks {
        goals_text(alloc, theory, block.goals.as_slice(), out)?;
    }
    Ok(())
}

/// Appends how many steps and Derive steps the blocks have.
pub fn push_counts(out: &mut Vec<u8>, blocks: &[Block]) -> Result<(), AllocError>
    requires few { steps_in (map plain_block blocks.now) ≤ 100000 }
    ensures { OnOk result (out.new.items ≡ out.old.items ++ counts_text
        (steps_in (map plain_block blocks.now)) (derives_in (map plain_block blocks.now))) }
{
    push_both(out, steps_in(blocks), derives_in(blocks))
}

#[tactic(auto, using(crate::proofs::Rules::joins))]
fn push_both(out: &mut Vec<u8>, steps: u64, derives: u64) -> Result<(), AllocError>
    ensures { OnOk result (out.new.items ≡ out.old.items ++ counts_text steps derives) }
{
    push_numbered(out, b"steps: ", steps)?;
    push_counted(out, b"\nderives: ", derives, b"\n")
}

/// The text of a goal that the search cannot do.
pub(crate) fn stuck_text(
    alloc: Global,
    theory: &Theory,
    block: u32,
    left: &Term,
    right: &Term,
    assumptions: &[Pair],
) -> Result<Vec<u8>, AllocError>
    ensures { IfOk result (λ v. v.items ≡ stuck_text theory.now.signature block
        left.now right.now (map plain_pair assumptions.now)) }
{
    let mut out = Vec::new(alloc);
    push_counted(&mut out, b"stuck in block ", u64::from(block), b"\n")?;
    put_side(alloc, theory, b"left: ", left, &mut out)?;
    put_side(alloc, theory, b"right: ", right, &mut out)?;
    put_cases(alloc, theory, assumptions, &mut out)?;
    Ok(out)
}

/// Appends a line for a side of a goal.
pub(crate) fn put_side(
    alloc: Global,
    theory: &Theory,
    label: &[u8],
    term: &Term,
    out: &mut Vec<u8>,
) -> Result<(), AllocError>
    ensures { OnOk result (out.new.items ≡ out.old.items
        ++ side_line label.now theory.now.signature term.now) }
{
    out.extend_from_slice(label)?;
    print(alloc, theory, term, out)?;
    out.extend_from_slice(b"\n")
}

/// Appends a line for each case that is assumed.
fn put_cases(
    alloc: Global,
    theory: &Theory,
    cases: &[Pair],
    out: &mut Vec<u8>,
) -> Result<(), AllocError>
    ensures { OnOk result (out.new.items ≡ out.old.items
        ++ pair_lines (codes "case: ") theory.now.signature (map plain_pair cases.now)) }
{
    for case in cases {
        put_case(alloc, theory, case, out)?;
    }
    Ok(())
}

fn put_case(
    alloc: Global,
    theory: &Theory,
    case: &Pair,
    out: &mut Vec<u8>,
) -> Result<(), AllocError>
    ensures { OnOk result (out.new.items ≡ out.old.items
        ++ pair_line (codes "case: ") theory.now.signature (plain_pair case.now)) }
{
    out.extend_from_slice(b"case: ")?;
    print_pair(alloc, theory, &case.left, &case.right, out)?;
    out.extend_from_slice(b"\n")
}
