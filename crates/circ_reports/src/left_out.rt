//! Which lines of conditions a proof has.
ghost use Rattle.std.specs.Prelude.{◌≡◌, map};
ghost use Rattle.std.specs.List.{list_any};
ghost use Rattle.std.specs.Option.{option_map};
ghost use Rattle.circ_proof.specs.Plain.{plain_link, plain_links, plain_chain, plain_why};
ghost use Rattle.circ_proof.specs.Plain.{plain_whys, plain_chains, chains_in};
ghost use Rattle.circ_proof.specs.PlainProof.{plain_step, plain_steps, plain_names, plain_block};
ghost use Rattle.circ_proof.specs.PlainProof.{plain_certificates, plain_proof};
ghost use Rattle.circ_reports.specs.PlainProof.{has_given, has_if, chain_has_if, why_has_if};
ghost use Rattle.circ_reports.specs.PlainProof.{whys_have_if, step_has_if, is_cases};
ghost use Rattle.circ_reports.specs.PlainProof.{some_given, some_if, some_cases, left_out};

use circ_proof::{Block, Chain, GoalNames, Link, Proof, Step, Why};

/// The first word of `given`, `if` and `cases` that begins a line of the proof.
pub(crate) fn left_out(proof: &Proof) -> Option<&'static [u8]>
    ensures { option_map (λ w. w.now) result ≡ left_out (plain_proof proof.now) }
{
    let blocks = proof.blocks.as_slice();
    if some_given(blocks) {
        return Some(b"given");
    }
    if certified_if(proof.certificates.as_slice()) {
        return Some(b"if");
    }
    if some_if(blocks) {
        return Some(b"if");
    }
    if some_cases(blocks) {
        return Some(b"cases");
    }
    None
}

fn some_given(blocks: &[Block]) -> bool
    ensures { result ≡ some_given (map plain_block blocks.now) }
{
    for block in blocks {
        if given_among(block.names.as_slice()) {
            return true;
        }
    }
    false
}

fn given_among(names: &[GoalNames]) -> bool
    ensures { result ≡ list_any has_given (map plain_names names.now) }
{
    for name in names {
        if name.conds.len() > 0 {
            return true;
        }
    }
    false
}

fn certified_if(certificates: &[Vec<Link>]) -> bool
    ensures { result ≡ list_any (λ ls. list_any has_if ls) (plain_certificates certificates.now) }
{
    for links in certificates {
        if if_among(links.as_slice()) {
            return true;
        }
    }
    false
}

fn if_among(links: &[Link]) -> bool
    ensures { result ≡ list_any has_if (plain_links links.now) }
{
    for link in links {
        if has_if(link) {
            return true;
        }
    }
    false
}

fn has_if(link: &Link) -> bool
    ensures { result ≡ has_if (plain_link link.now) }
{
    chains(link).len() > 0
}

// The chains of a link's conditions.
fn chains(link: &Link) -> &[Chain]
    ensures { plain_chains result.now ≡ chains_in (plain_link link.now) }
{
    match link {
        Link::Equation { conds, .. } => conds.as_slice(),
        Link::Hypothesis { conds, .. } => conds.as_slice(),
        Link::Assumption { .. } => &[],
        Link::Content { .. } => &[],
    }
}

fn chain_has_if(chain: &Chain) -> bool
    ensures { result ≡ chain_has_if (plain_chain chain.now) }
{
    if if_among(chain.left.as_slice()) {
        return true;
    }
    if_among(chain.right.as_slice())
}

fn some_if(blocks: &[Block]) -> bool
    ensures { result ≡ some_if (map plain_block blocks.now) }
{
    for block in blocks {
        if if_among_steps(block.steps.as_slice()) {
            return true;
        }
    }
    false
}

fn if_among_steps(steps: &[Step]) -> bool
    ensures { result ≡ list_any step_has_if (plain_steps steps.now) }
{
    for step in steps {
        if step_has_if(step) {
            return true;
        }
    }
    false
}

fn step_has_if(step: &Step) -> bool
    ensures { result ≡ step_has_if (plain_step step.now) }
{
    match step {
        Step::Simplify { chain } => chain_has_if(chain),
        Step::Reduce { why } => why_has_if(why),
        _ => false,
    }
}

#[cycle(why)]
fn why_has_if(why: &Why) -> bool
    ensures { result ≡ why_has_if (plain_why why.now) }
{
    match why {
        Why::Same { chain } => chain_has_if(chain),
        Why::Split { chain, whys, .. } => {
            if chain_has_if(chain) {
                return true;
            }
            whys_have_if(whys.as_slice())
        }
    }
}

#[cycle(why)]
fn whys_have_if(whys: &[Why]) -> bool
    ensures { result ≡ whys_have_if (plain_whys whys.now) }
{
    for why in whys {
        if why_has_if(why) {
            return true;
        }
    }
    false
}

fn some_cases(blocks: &[Block]) -> bool
    ensures { result ≡ some_cases (map plain_block blocks.now) }
{
    for block in blocks {
        if cases_among(block.steps.as_slice()) {
            return true;
        }
    }
    false
}

fn cases_among(steps: &[Step]) -> bool
    ensures { result ≡ list_any is_cases (plain_steps steps.now) }
{
    for step in steps {
        if is_cases(step) {
            return true;
        }
    }
    false
}

fn is_cases(step: &Step) -> bool
    ensures { result ≡ is_cases (plain_step step.now) }
{
    match step {
        Step::Cases { .. } => true,
        _ => false,
    }
}
