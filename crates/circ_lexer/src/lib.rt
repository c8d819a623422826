//! Bytes cut into tokens.
//!
//! [`Tokens`] are the places of the tokens of some bytes, found in one pass. Blanks and comments
//! stand between tokens, each bracket and the comma is a token by itself, and any other token is a
//! longest run of visible bytes. What a token is, and which byte is a fault, is defined in `specs`,
//! and [`laws`] states what is proved of these notions.
#![tactic(auto)]

mod bytes;
mod fault;
pub mod laws;
mod scan;
mod tokens;

pub use fault::LexFault;
pub use tokens::{Span, Tokens};
