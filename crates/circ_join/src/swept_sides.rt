//! Both sides of a goal after a pass.
ghost use Rattle.std.specs.Prelude.{◌≡◌};
ghost use Rattle.circ_conditional_search.specs.Search.{pass_chain};
ghost use Rattle.circ_plain_search.specs.Search.{has_links};
ghost use Rattle.circ_join.specs.Sides.{plain_swept_sides};

use crate::passing::Swept;

/// Both sides of a goal after a pass.
#[derive(Drop)]
pub struct SweptSides {
    /// The left side.
    pub left: Swept,
    /// The right side.
    pub right: Swept,
}

impl SweptSides {
    /// Whether the pass has used a hypothesis on one of the sides.
    pub fn has_uses(&self) -> bool
        ensures { result ≡ has_links (pass_chain (plain_swept_sides self.now)) }
    {
        if !self.left.uses.as_slice().is_empty() {
            return true;
        }
        !self.right.uses.as_slice().is_empty()
    }
}
