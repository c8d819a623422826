//! Certificates of special sets on interned terms: exact by the words of circ_rules and
//! circ_special, which judge them on terms.
//!
//! [`guarded`] decides whether a variable is guarded in the term of a number. It goes over each
//! distinct node once for each way in which the bodies of derivatives reach into it, however large
//! the term is that the number stands for. [`certify_next`] takes the certificates one by one.
#![tactic(auto)]

mod certifying;
mod fitting;
mod guard;

pub use certifying::certify_next;
pub use guard::guarded;
