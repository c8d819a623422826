//! Terms of many-sorted algebra, and substitutions.
//!
//! A [`Term`] is a variable or an operator on terms. Its nodes are shared: [`Term::share`] copies
//! none, and [`Term::replace`] and [`Subst::apply`] make the changed ones only. Contracts see a
//! term as the plain tree that it stands for. A term is never larger or deeper than the limits
//! below.
#![tactic(auto)]

mod bindings;
mod fault;
pub mod laws;
mod node;

pub use bindings::Subst;
pub use fault::TermFault;
pub use node::{Kind, Term, cmp_all, head_fingerprint, mixed, share_all};

/// The most nodes of a term, counted as a tree.
pub const MOST_NODES: u64 = 1_000_000;

/// The greatest depth of a term. A variable and a constant have depth 1.
pub const MOST_DEPTH: u64 = 1_000;

/// The most arguments of one application.
pub const MOST_ARGS: usize = 65_536;

/// A place in a term: the argument to go to at each step down, from 0.
pub type Path = smallvec::SmallVec<u16, 16>;
