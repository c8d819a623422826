//! The certificates of a special set.
ghost use Rattle.std.specs.Prelude.{◌≡◌, ◌<◌, length, map, IfOk};
ghost use Rattle.std.specs.List.{AllByRecursion};
ghost use Rattle.circ_theory.specs.Signature.{IsWellSorted};
ghost use Rattle.circ_theory.specs.Rewriting.{named};
ghost use Rattle.circ_special.specs.Special.{IsSet};
ghost use Rattle.circ_proof.specs.Plain.{map_link};
ghost use Rattle.circ_proof.specs.Link.{AllOfLinks};
ghost use Rattle.circ_proof.specs.Certified.{due};
ghost use Rattle.circ_proof.specs.PlainProof.{plain_certificates};
ghost use Rattle.circ_calls.specs.Admitting.{Admits};

use circ_certificates::certify_next;
use circ_entering::enter_rules;
use circ_nodes::Nodes;
use circ_proof::Link;
use circ_rules::Due;
use circ_special::Gamma;
use circ_term::Term;
use circ_theory::Theory;
use std::alloc::{AllocError, Global};

/// What the certificates of a special set come to.
#[derive(Clone, Copy, PartialEq, Eq)]
pub enum Admission {
    /// Each one certifies what is due.
    Yes,
    /// The first that does not, counted from 1.
    No { number: u64 },
}

/// Whether each certificate leads from its start term to a term that is guarded in variable 0.
pub fn admit(
    alloc: Global,
    theory: &Theory,
    table: &[Term],
    gamma: &Gamma,
    certificates: &[Vec<Link>],
) -> Result<Admission, AllocError>
    requires in_table { AllByRecursion (AllOfLinks (λ n. n < length table.now))
        (plain_certificates certificates.now) }
    requires table_sorted { AllByRecursion (IsWellSorted theory.now.signature) table.now }
    requires places { IsSet theory.now gamma.now }
    requires one_each { length certificates.now ≡ length (due theory.now gamma.now) }
    ensures { IfOk result (Admits theory.now gamma.now
        (map (map (map_link (named table.now))) (plain_certificates certificates.now))) }
{
    let mut nodes = Nodes::new(alloc);
    let numbered = enter_rules(alloc, theory, &mut nodes, table)?;
    let rules = numbered.rules(alloc, theory, gamma);
    let mut due = Due::all();
    for (done, links) in certificates.iter().enumerate() {
        if !certify_next(&rules, &mut nodes, &mut due, links.as_slice())? {
            return Ok(Admission::No {
                number: done as u64 + 1,
            });
        }
    }
    Ok(Admission::Yes)
}
