//! Goals once more.
ghost use Rattle.std.specs.Prelude.{◌≡◌, IfOk};

use circ_theory::Goal;
use std::alloc::{AllocError, Global};

/// The same goals once more. Their terms are shared.
pub fn share_goals(alloc: Global, goals: &[Goal]) -> Result<Vec<Goal>, AllocError>
    ensures { IfOk result (λ v. v.items ≡ goals.now) }
{
    let mut copy = Vec::with_capacity(alloc, goals.len())?;
    for goal in goals {
        copy.push(goal.share(alloc)?)?;
    }
    Ok(copy)
}
