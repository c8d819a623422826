//! The relation that a proof builds, as text: what each of its blocks derived.
ghost use Rattle.std.specs.Prelude.{◌≡◌, ◌++◌, map, OnOk, OnErr};
ghost use Rattle.circ_show.specs.GoalsText.{block_lines, relation_lines};

use crate::goals::put_goals;
use circ_theory::{Goal, Theory};
use itoa::Buffer;
use std::alloc::{AllocError, Global};

/// Appends for each block the line `block N`, N from 1, and the line `pair: PAIR` of each goal that
/// it derived, in order, or `pair: PAIR if PAIR /\ PAIR` where it has conditions. If it runs out
/// of memory the bytes are as before.
pub fn relation_text(
    alloc: Global,
    theory: &Theory,
    blocks: &[Vec<Goal>],
    out: &mut Vec<u8>,
) -> Result<(), AllocError>
    ensures text { OnOk result (out.new.items ≡ out.old.items ++ relation_lines
        theory.now.signature 1 (map (λ b. b.items) blocks.now)) }
    ensures err { OnErr result (out.new.items ≡ out.old.items) }
{
    let mut text = Vec::new(alloc);
    put_blocks(alloc, &mut text, theory, blocks)?;
    out.extend_from_slice(&text)
}

fn put_blocks(
    alloc: Global,
    out: &mut Vec<u8>,
    theory: &Theory,
    blocks: &[Vec<Goal>],
) -> Result<(), AllocError>
    ensures { OnOk result (out.new.items ≡ out.old.items ++ relation_lines
        theory.now.signature 1 (map (λ b. b.items) blocks.now)) }
{
    for (done, block) in blocks.iter().enumerate() {
        put_block(alloc, out, theory, done as u64 + 1, block.as_slice())?;
    }
    Ok(())
}

fn put_block(
    alloc: Global,
    out: &mut Vec<u8>,
    theory: &Theory,
    number: u64,
    derived: &[Goal],
) -> Result<(), AllocError>
    ensures { OnOk result (out.new.items ≡ out.old.items ++ block_lines
        theory.now.signature number derived.now) }
{
    out.extend_from_slice(b"block ")?;
    out.extend_from_slice(Buffer::new().format(number).as_bytes())?;
    out.extend_from_slice(b"\n")?;
    put_goals(alloc, out, theory, b"pair: ", derived)
}
