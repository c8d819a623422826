//! What a search finds.
use circ_proof::Proof;
use circ_term::Term;
use circ_theory::Pair;

/// What a search finds.
#[derive(Drop)]
pub enum Found {
    /// A proof.
    Proved {
        proof: Proof,
    },
    /// Every goal is done, and the proof's table would have this many terms, which are too many.
    LongTable {
        terms: u64,
    },
    /// A case of a goal cannot be split further. Blocks and goals are counted from 1.
    Stuck {
        block: u32,
        goal: u64,
        left: Term,
        right: Term,
        assumptions: Vec<Pair>,
    },
    /// A budget is spent, after so many rewrite steps, Derive steps and steps.
    Spent {
        rewrites: u64,
        derives: u64,
        steps: u64,
    },
    /// A term would have this many nodes.
    TooBig {
        nodes: u64,
    },
    /// A term would have this depth.
    TooDeep {
        depth: u64,
    },
}
