//! Contents merged: laws without code.
//!
//! A content that is settled takes one entry more, or another settled content, by one walk and no
//! sort. [`laws`] states what that means for canonical forms, and when an application is its own.
#![tactic(auto)]

pub mod laws;
