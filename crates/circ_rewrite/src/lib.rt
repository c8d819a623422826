//! Normal forms: what they are, and the types that speak of them.
//!
//! What the normal form of a term is under rules and assumptions is defined in `specs` (`norm`), by
//! the first place at which a replacement is due, and not by the order of the work; circ_memo finds
//! normal forms. Here are the types of rules, of the [`Trace`] of each replacement, and of what
//! comes of normalising; [`theory_rules`] lists the rules of a theory, [`links_of`] gives
//! traces as links of a proof, and [`share_goals`] gives goals once more. [`laws`] states what is
//! proved of normal forms.
#![tactic(auto)]

mod fault;
mod goals;
pub mod laws;
mod links;
mod listing;
mod parts;

pub use fault::RewriteFault;
pub use goals::share_goals;
pub use links::links_of;
pub use listing::theory_rules;
pub use parts::{Normal, Pass, Rule, RuleName, Trace, share_rules};
