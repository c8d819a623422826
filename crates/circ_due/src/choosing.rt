//! Which replacement is due at the root of an interned term.
ghost use Rattle.std.specs.Prelude.{◌≡◌, ◌<◌, length, IfOk, IfSome, None};
ghost use Rattle.circ_rewrite.specs.Due.{assumed, ruled};
ghost use Rattle.circ_rewrite.specs.Standing.{HasSettledBelow};
ghost use Rattle.circ_nodes.specs.Named.{tree_at};
ghost use Rattle.circ_due.specs.Chosen.{IsReady, IsChosenOf, Chooses, due_by};

use crate::choice::Choice;
use crate::means::Means;
use circ_forms::{is_canonical, is_canonical_above};
use circ_nodes::{Nodes, Shape};
use std::alloc::AllocError;

// What is due at the root of a term that no assumption has as its left side.
pub(crate) fn choose_besides(
    means: &Means<'_>,
    nodes: &Nodes,
    number: u32,
) -> Result<Option<Choice>, AllocError>
    requires ready { IsReady nodes.now means.now }
    requires there { number < length nodes.now }
    requires none { assumed 0 means.now.assumptions (tree_at nodes.now number) ≡ None }
    ensures { IfOk result (Chooses nodes.now means.now (tree_at nodes.now number)
        (due_by means.now (tree_at nodes.now number))) }
{
    let Shape::Application { op, .. } = nodes.shape(number) else {
        return Ok(None);
    };
    if !is_canonical(means.theory, nodes, op, number) {
        return Ok(Some(Choice::Content { op }));
    }
    ruled(means, nodes, number)
}

// The same of a term in whose arguments nothing is due.
pub(crate) fn choose_besides_above(
    means: &Means<'_>,
    nodes: &Nodes,
    number: u32,
) -> Result<Option<Choice>, AllocError>
    requires ready { IsReady nodes.now means.now }
    requires there { number < length nodes.now }
    requires none { assumed 0 means.now.assumptions (tree_at nodes.now number) ≡ None }
    ensures chosen { IfOk result (λ o. IfSome o (IsChosenOf nodes.now means.now
        (tree_at nodes.now number))) }
    ensures exact { HasSettledBelow (due_by means.now) (tree_at nodes.now number)
        → IfOk result (Chooses nodes.now means.now (tree_at nodes.now number)
        (due_by means.now (tree_at nodes.now number))) }
{
    let Shape::Application { op, .. } = nodes.shape(number) else {
        return Ok(None);
    };
    if !is_canonical_above(means.theory, nodes, op, number) {
        return Ok(Some(Choice::Content { op }));
    }
    ruled(means, nodes, number)
}

// The first rule whose left side matches.
fn ruled(means: &Means<'_>, nodes: &Nodes, number: u32) -> Result<Option<Choice>, AllocError>
    requires ready { IsReady nodes.now means.now }
    requires there { number < length nodes.now }
    ensures { IfOk result (Chooses nodes.now means.now (tree_at nodes.now number)
        (ruled means.now.rules.items (tree_at nodes.now number))) }
{
    match means.rule_from(nodes, number, 0)? {
        Some((rule, given)) => Ok(Some(Choice::Ruled { rule, given })),
        None => Ok(None),
    }
}
