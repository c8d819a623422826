//! The grammar of a proof file: which lines in which order are a proof, and which line of any other
//! bytes is the first at fault.
//!
//! A proof as its lines write it is `NumberedProof` of `specs`, with the numbers of its table in
//! place of terms; `IsTextOf` and `IsFirstFault` say what bytes are. A reader goes through the
//! states of `Machine`. [`laws`] states what is proved of these notions.
#![tactic(auto)]

pub mod laws;
