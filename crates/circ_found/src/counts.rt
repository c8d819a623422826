//! How many steps a proof has.
ghost use Rattle.std.specs.Prelude.{◌≡◌, ◌≤◌, length, map};
ghost use Rattle.circ_proof.specs.PlainProof.{plain_block, plain_steps};
ghost use Rattle.circ_proof.specs.Proof.{steps_in};
ghost use Rattle.circ_found.specs.Answering.{derives_among, derives_in};

use circ_proof::{Block, Step};

/// The steps of all blocks.
pub(crate) fn steps_in(blocks: &[Block]) -> u64
    requires few { steps_in (map plain_block blocks.now) ≤ 100000 }
    ensures { result ≡ steps_in (map plain_block blocks.now) }
{
    let mut count = 0;
    for block in blocks {
        count += block.steps.len() as u64;
    }
    count
}

/// The Derive steps of all blocks.
pub(crate) fn derives_in(blocks: &[Block]) -> u64
    requires few { steps_in (map plain_block blocks.now) ≤ 100000 }
    ensures { result ≡ derives_in (map plain_block blocks.now) }
{
    let mut count = 0;
    for block in blocks {
        count += derives_among(block.steps.as_slice());
    }
    count
}

fn derives_among(steps: &[Step]) -> u64
    requires few { length steps.now ≤ 100000 }
    ensures exact { result ≡ derives_among (plain_steps steps.now) }
    ensures few { result ≤ length steps.now }
{
    let mut count = 0;
    for step in steps {
        match step {
            Step::Derive => count += 1,
            _ => {}
        }
    }
    count
}
