//! Certificates by number, one after the other.
ghost use Rattle.std.specs.Prelude.{◌≡◌, ◌<◌, ◌↔◌, length, IsTrue, Some, IfOk, OnErr};
ghost use Rattle.std.specs.List.{AllByRecursion, slice_get};
ghost use Rattle.std.specs.Option.{IfSome, option_map};
ghost use Rattle.circ_term.specs.Growing.{Grows};
ghost use Rattle.circ_special.specs.Special.{IsPlace, IsSet};
ghost use Rattle.circ_proof.specs.Plain.{plain_links};
ghost use Rattle.circ_proof.specs.Link.{AllOfLinks, resolved_links};
ghost use Rattle.circ_proof.specs.Certified.{Certified};
ghost use Rattle.circ_rules.specs.Admitting.{IsStart};
ghost use Rattle.circ_rules.specs.Due.{CertifiesNext};
ghost use Rattle.circ_steps.specs.Judging.{AreRules, terms_at};

use crate::guard::guarded;
use circ_nodes::Nodes;
use circ_proof::Link;
use circ_rules::{Due, Start, next_slot, start_at, start_term};
use circ_shared::Sources;
use circ_steps::Rules;
use std::alloc::AllocError;

/// Whether the links are the certificate that is due next; `due` goes on to the one behind it. If
/// none is due, or memory runs out, `due` is as before. The terms that were made on the way are
/// gone then, so that the table is as it was.
pub fn certify_next(
    rules: &Rules<'_>,
    nodes: &mut Nodes,
    due: &mut Due,
    links: &[Link],
) -> Result<bool, AllocError>
    requires rules { AreRules nodes.old rules.now }
    requires in_table { AllOfLinks (λ n. n < length rules.now.table.now)
        (plain_links links.now) }
    requires places { IsSet rules.now.theory.now rules.now.gamma.now }
    ensures same { nodes.new ≡ nodes.old }
    ensures exact { IfOk result (CertifiesNext rules.now.theory.now rules.now.gamma.now
        due.old due.new (resolved_links (terms_at nodes.old rules.now)
        (plain_links links.now))) }
    ensures kept { OnErr result (due.new ≡ due.old) }
{
    let count = nodes.len();
    let answer = certify(rules, nodes, due, links);
    nodes.cut(count);
    answer
}

// The same. What was made stays.
fn certify(
    rules: &Rules<'_>,
    nodes: &mut Nodes,
    due: &mut Due,
    links: &[Link],
) -> Result<bool, AllocError>
    requires rules { AreRules nodes.old rules.now }
    requires in_table { AllOfLinks (λ n. n < length rules.now.table.now)
        (plain_links links.now) }
    requires places { AllByRecursion (IsPlace rules.now.theory.now) rules.now.gamma.now }
    ensures grows { Grows nodes.old nodes.new }
    ensures exact { IfOk result (CertifiesNext rules.now.theory.now rules.now.gamma.now
        due.old due.new (resolved_links (terms_at nodes.old rules.now)
        (plain_links links.now))) }
    ensures kept { OnErr result (due.new ≡ due.old) }
{
    let mut next = *due;
    let Some(slot) = next_slot(rules.theory, rules.gamma, &mut next) else {
        return Ok(false);
    };
    let start = start_at(rules.alloc, rules.theory, slot.place)?;
    let holds = certifies(rules, nodes, &start, slot.derivative, links)?;
    *due = next;
    Ok(holds)
}

// Whether the links are a certificate of the place and the derivative of this number.
fn certifies(
    rules: &Rules<'_>,
    nodes: &mut Nodes,
    start: &Start<'_>,
    derivative: u32,
    links: &[Link],
) -> Result<bool, AllocError>
    requires rules { AreRules nodes.old rules.now }
    requires in_table { AllOfLinks (λ n. n < length rules.now.table.now)
        (plain_links links.now) }
    requires start { IsStart rules.now.theory.now start.now }
    requires hole { option_map (λ d. d.hole)
        (slice_get rules.now.theory.now.derivatives derivative) ≡
        Some start.now.decl.now.result }
    ensures grows { Grows nodes.old nodes.new }
    ensures exact { IfSome (slice_get rules.now.theory.now.derivatives derivative) (λ d.
        IfOk result (λ b. IsTrue b ↔ Certified rules.now.theory.now rules.now.gamma.now
        start.now.place d (resolved_links (terms_at nodes.old rules.now)
        (plain_links links.now)))) }
{
    let Some(term) = start_term(rules.alloc, rules.theory, start, derivative)? else {
        return Ok(false);
    };
    let first = nodes.intern(&term)?;
    let sources = Sources {
        alloc: rules.alloc,
        theory: rules.theory,
        equations: rules.equations,
        gamma: rules.gamma,
        hyps: &[],
        table: rules.table,
    };
    let Some(last) = sources.follow_all(nodes, &[], links, first)? else {
        return Ok(false);
    };
    guarded(rules, nodes, last, 0, start.sort)
}
