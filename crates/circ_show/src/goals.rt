//! Goals as text.
ghost use Rattle.std.specs.Prelude.{◌≡◌, ◌++◌, OnOk, OnErr};
ghost use Rattle.circ_show.specs.GoalsText.{labelled_goal, labelled_goals, goal_lines};

use circ_mixfix::print_goal;
use circ_theory::{Goal, Theory};
use std::alloc::{AllocError, Global};

/// Appends the line `goal: PAIR` of each goal, in order, or `goal: PAIR if PAIR /\ PAIR` where it
/// has conditions. If it runs out of memory the bytes are as before.
pub fn goals_text(
    alloc: Global,
    theory: &Theory,
    goals: &[Goal],
    out: &mut Vec<u8>,
) -> Result<(), AllocError>
    ensures text { OnOk result (out.new.items ≡
        out.old.items ++ goal_lines theory.now.signature goals.now) }
    ensures err { OnErr result (out.new.items ≡ out.old.items) }
{
    let mut text = Vec::new(alloc);
    put_goals(alloc, &mut text, theory, b"goal: ", goals)?;
    out.extend_from_slice(&text)
}

/// Appends a line with this label for each goal, in order.
pub(crate) fn put_goals(
    alloc: Global,
    out: &mut Vec<u8>,
    theory: &Theory,
    label: &[u8],
    goals: &[Goal],
) -> Result<(), AllocError>
    ensures { OnOk result (out.new.items ≡
        out.old.items ++ labelled_goals label.now theory.now.signature goals.now) }
{
    for goal in goals {
        put_goal(alloc, out, theory, label, goal)?;
    }
    Ok(())
}

fn put_goal(
    alloc: Global,
    out: &mut Vec<u8>,
    theory: &Theory,
    label: &[u8],
    goal: &Goal,
) -> Result<(), AllocError>
    ensures { OnOk result (out.new.items ≡
        out.old.items ++ labelled_goal label.now theory.now.signature goal.now) }
{
    out.extend_from_slice(label)?;
    print_goal(alloc, theory, goal, out)?;
    out.extend_from_slice(b"\n")
}
