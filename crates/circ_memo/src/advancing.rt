//! One replacement at the root of a term.
ghost use Rattle.std.specs.Prelude.{◌≡◌, ◌≤◌, ◌<◌, Some, length};
ghost use Rattle.circ_term.specs.Tree.{Tree};
ghost use Rattle.circ_rewrite.specs.Standing.{HasSettledBelow};
ghost use Rattle.circ_rewrite.specs.Plain.{rewrite_fault};
ghost use Rattle.circ_term.specs.Growing.{Grows};
ghost use Rattle.circ_rewrite.specs.Replacement.{Replacement};
ghost use Rattle.circ_nodes.specs.Named.{IsNamed, tree_at};
ghost use Rattle.circ_due.specs.Chosen.{IsReady, IsChoice, IsChosenOf, due_by};
ghost use Rattle.circ_memo.specs.Settling.{Advances, IsPastIf};

use crate::parts::{Bounds, Stop};
use circ_due::{Choice, Means};
use circ_nodes::Nodes;
use circ_rewrite::RewriteFault;
use circ_term::TermFault;

// Makes the replacement that is due at the root of a term with normal arguments. None where none is
// due.
pub(crate) fn advance(
    means: &Means<'_>,
    nodes: &mut Nodes,
    number: u32,
    bounds: Bounds,
    budget: &mut u64,
) -> Result<Option<u32>, Stop>
    requires ready { IsReady nodes.old means.now }
    requires there { number < length nodes.old }
    ensures grows { Grows nodes.old nodes.new }
    ensures less { budget.new ≤ budget.old }
    ensures advances { (t : Tree) → IsNamed nodes.old number t
        → HasSettledBelow (due_by means.now) t
        → Advances (due_by means.now) nodes.new bounds budget.old budget.new t result }
{
    let Some(choice) = means.choose_above(nodes, number)? else {
        return Ok(None);
    };
    let made = replace(means, nodes, number, &choice, bounds, budget);
    drop(choice);
    made
}

// Makes the replacement of this choice, where the budget and the bounds allow it.
fn replace(
    means: &Means<'_>,
    nodes: &mut Nodes,
    number: u32,
    choice: &Choice,
    bounds: Bounds,
    budget: &mut u64,
) -> Result<Option<u32>, Stop>
    requires ready { IsReady nodes.old means.now }
    requires there { number < length nodes.old }
    requires chosen { (t : Tree) × IsNamed nodes.old number t
        × IsChosenOf nodes.old means.now t choice.now }
    ensures grows { Grows nodes.old nodes.new }
    ensures less { budget.new ≤ budget.old }
    ensures advances { (t : Tree) (r : Replacement) → IsNamed nodes.old number t
        → HasSettledBelow (due_by means.now) t → due_by means.now t ≡ Some r
        → IsChoice nodes.old means.now t choice.now r
        → Advances (due_by means.now) nodes.new bounds budget.old budget.new t result }
{
    if *budget == 0 {
        return Err(Stop::Fault(RewriteFault::Spent));
    }
    let new = match means.build(nodes, number, choice) {
        Ok(new) => new,
        Err(fault) => return Err(Stop::Fault(rewrite_fault(fault))),
    };
    nodes.known_at(new);
    if is_past(nodes, new, bounds) {
        return Err(Stop::Outgrows(new));
    }
    *budget -= 1;
    Ok(Some(new))
}

// Whether a term is past the bounds.
fn is_past(nodes: &Nodes, number: u32, bounds: Bounds) -> bool
    requires { number < length nodes.now }
    ensures { IsPastIf bounds (tree_at nodes.now number) result }
{
    if nodes.size(number) > bounds.big {
        return true;
    }
    nodes.depth(number) > bounds.deep
}

pub(crate) fn rewrite_fault(fault: TermFault) -> RewriteFault
    ensures { result ≡ rewrite_fault fault }
{
    match fault {
        TermFault::TooBig { nodes } => RewriteFault::TooBig { nodes },
        TermFault::TooDeep { depth } => RewriteFault::TooDeep { depth },
        TermFault::Memory => RewriteFault::Memory,
    }
}
