//! The version of a proof: 1 where it has no condition and no Cases, and 2 where it has.
ghost use Rattle.std.specs.Prelude.{◌≡◌};
ghost use Rattle.std.specs.List.{list_all};
ghost use Rattle.circ_proof.specs.Plain.{plain_link, plain_links, plain_chain};
ghost use Rattle.circ_proof.specs.Plain.{plain_why, plain_whys};
ghost use Rattle.circ_proof.specs.PlainProof.{plain_step, plain_steps};
ghost use Rattle.circ_numbering.specs.Plain.{plain_term_block, plain_term_blocks};
ghost use Rattle.circ_numbering.specs.Plain.{plain_term_certificates};
ghost use Rattle.circ_conditional_search.specs.Versions.{version_of, is_plain_block};
ghost use Rattle.circ_conditional_search.specs.Versions.{has_no_conds, is_plain_step};
ghost use Rattle.circ_conditional_search.specs.Versions.{is_plain_why, are_plain_whys};
ghost use Rattle.circ_conditional_search.specs.Versions.{is_plain_chain, is_plain_link};

use circ_numbering::TermBlock;
use circ_proof::{Chain, Link, Step, Why};
use circ_term::Term;
use circ_theory::Goal;

/// The version of the proof of these blocks with these certificates. Takes no memory.
pub(crate) fn version_of(blocks: &[TermBlock], certificates: &[Vec<Link<Term>>]) -> u8
    ensures { result ≡ version_of (plain_term_blocks blocks.now)
        (plain_term_certificates certificates.now) }
{
    if !are_plain_blocks(blocks) {
        return 2;
    }
    if !are_plain_certificates(certificates) {
        return 2;
    }
    1
}

fn are_plain_blocks(blocks: &[TermBlock]) -> bool
    ensures { result ≡ list_all is_plain_block (plain_term_blocks blocks.now) }
{
    for block in blocks {
        if !is_plain_block(block) {
            return false;
        }
    }
    true
}

fn are_plain_certificates(certificates: &[Vec<Link<Term>>]) -> bool
    ensures { result
        ≡ list_all (list_all is_plain_link) (plain_term_certificates certificates.now) }
{
    for links in certificates {
        if !are_plain_links(links.as_slice()) {
            return false;
        }
    }
    true
}

// Whether no goal of a block has conditions, and each of its steps is plain.
fn is_plain_block(block: &TermBlock) -> bool
    ensures { result ≡ is_plain_block (plain_term_block block.now) }
{
    if !have_no_conds(block.goals.as_slice()) {
        return false;
    }
    are_plain_steps(block.steps.as_slice())
}

fn have_no_conds(goals: &[Goal]) -> bool
    ensures { result ≡ list_all has_no_conds goals.now }
{
    for goal in goals {
        if goal.conds.len() >= 1 {
            return false;
        }
    }
    true
}

fn are_plain_steps(steps: &[Step<Term>]) -> bool
    ensures { result ≡ list_all is_plain_step (plain_steps steps.now) }
{
    for step in steps {
        if !is_plain_step(step) {
            return false;
        }
    }
    true
}

// Whether a step is not Cases, and none of its links has conditions.
fn is_plain_step(step: &Step<Term>) -> bool
    ensures { result ≡ is_plain_step (plain_step step.now) }
{
    match step {
        Step::Simplify { chain } => is_plain_chain(chain),
        Step::Reduce { why } => is_plain_why(why),
        Step::Derive => true,
        Step::Cases { .. } => false,
        Step::Done => true,
    }
}

#[cycle(is_plain_why)]
fn is_plain_why(why: &Why<Term>) -> bool
    ensures { result ≡ is_plain_why (plain_why why.now) }
{
    match why {
        Why::Same { chain } => is_plain_chain(chain),
        Why::Split { chain, whys, .. } => {
            if !is_plain_chain(chain) {
                return false;
            }
            are_plain_whys(whys.as_slice())
        }
    }
}

#[cycle(is_plain_why)]
fn are_plain_whys(whys: &[Why<Term>]) -> bool
    ensures { result ≡ are_plain_whys (plain_whys whys.now) }
{
    for why in whys {
        if !is_plain_why(why) {
            return false;
        }
    }
    true
}

fn is_plain_chain(chain: &Chain<Term>) -> bool
    ensures { result ≡ is_plain_chain (plain_chain chain.now) }
{
    if !are_plain_links(chain.left.as_slice()) {
        return false;
    }
    are_plain_links(chain.right.as_slice())
}

fn are_plain_links(links: &[Link<Term>]) -> bool
    ensures { result ≡ list_all is_plain_link (plain_links links.now) }
{
    for link in links {
        if !is_plain_link(link) {
            return false;
        }
    }
    true
}

// Whether a link has no conditions.
fn is_plain_link(link: &Link<Term>) -> bool
    ensures { result ≡ is_plain_link (plain_link link.now) }
{
    match link {
        Link::Equation { conds, .. } => conds.as_slice().is_empty(),
        Link::Hypothesis { conds, .. } => conds.as_slice().is_empty(),
        Link::Assumption { .. } => true,
        Link::Content { .. } => true,
    }
}
