//! Where hypotheses are used by a search, and what their uses make of a term.
//!
//! [`Joining::join`] makes two terms equal by [`Hypotheses`], [`Passing::pass`] rewrites a term by
//! [`Lemmas`]. Both go to special paths only, and try the conditions of what they use, which takes
//! steps. [`put_all`] puts the uses of a Join into a term, [`use_links`] gives uses as links, and
//! [`SweptSides`] are both sides of a goal after a pass. What both are made of is public:
//! [`Hypotheses::first_use`], [`passes`], [`bind_conditions`], [`chains_of`], [`has_place`],
//! [`use_link`], [`append`], [`put_at`] and [`rewrite_fault`].
#![tactic(auto)]

mod binding;
mod conditions;
mod first_use;
mod hypotheses;
mod joining;
mod lemmas;
mod passing;
mod putting;
mod reading;
mod stop;
mod swept_sides;
mod uses;

pub use binding::bind_conditions;
pub use conditions::{passes, rewrite_fault};
pub use hypotheses::Hypotheses;
pub use joining::{Joining, has_place};
pub use lemmas::Lemmas;
pub use passing::{Passing, Swept};
pub use putting::{put_all, put_at};
pub use reading::can_rewrite;
pub use stop::Stop;
pub use swept_sides::SweptSides;
pub use uses::{HypothesisUse, append, chains_of, use_link, use_links};
