//! What is due before rules, and the rules whose left sides match, one after the other.
ghost use Rattle.std.specs.Prelude.{◌≡◌, ◌<◌, IfOk, [], length};
ghost use Rattle.std.specs.Option.{option_or};
ghost use Rattle.circ_term.specs.Tree.{Tree};
ghost use Rattle.circ_rewrite.specs.Due.{assumed, content_due};
ghost use Rattle.circ_nodes.specs.Named.{IsNamed, tree_at};
ghost use Rattle.circ_due.specs.Chosen.{IsReady, Chooses, Fits};
ghost use Rattle.circ_due.specs.Finding.{FindsFit, FindsRule};
ghost use Rattle.circ_index.specs.Keys.{rule_keys};
ghost use Rattle.circ_index.specs.Walking.{IsOnWay, term_seats};

use crate::assuming::assumed_at;
use crate::choice::{Bounds, Choice};
use crate::matching::extend;
use crate::means::Means;
use circ_forms::is_canonical;
use circ_index::{Walk, number_keys};
use circ_nodes::{Nodes, Shape};
use circ_rewrite::Rule;
use std::alloc::AllocError;

impl Means<'_> {
    /// What is due at the root of the term of this number before any rule is tried: by an
    /// assumption, or by the canonical form.
    pub fn choose_before_rules(&self, nodes: &Nodes, number: u32) -> Option<Choice>
        requires ready { IsReady nodes.now self.now }
        requires there { number < length nodes.now }
        ensures { (t : Tree) → IsNamed nodes.now number t → Chooses nodes.now self.now t
            (option_or (assumed 0 self.now.assumptions t)
            (content_due self.now.theory.now.signature t)) result }
    {
        nodes.known();
        match assumed_at(&self.assumed, number) {
            Some(choice) => Some(choice),
            None => content_choice(self, nodes, number),
        }
    }

    /// The first rule from a place on whose left side matches the term of this number, by its
    /// place, with what its variables are given. Conditions are not looked at.
    pub fn rule_from(
        &self,
        nodes: &Nodes,
        number: u32,
        from: u32,
    ) -> Result<Option<(u32, Bounds)>, AllocError>
        requires ready { IsReady nodes.now self.now }
        requires there { number < length nodes.now }
        ensures { (t : Tree) → IsNamed nodes.now number t → IfOk result
            (FindsRule (λ given. given.items) nodes.now self.now.rules.items t from) }
    {
        let keys = number_keys(nodes, number);
        let mut walk = self.finder.start(&keys, from)?;
        let mut given = Bounds::new(self.alloc);
        match first_fit(self, nodes, number, from, &mut walk, &mut given)? {
            Some(rule) => Ok(Some((rule, given))),
            None => Ok(None),
        }
    }
}

// The same on a walk from there, by its place alone; what its variables are given is `given` then.
fn first_fit(
    means: &Means<'_>,
    nodes: &Nodes,
    number: u32,
    from: u32,
    walk: &mut Walk,
    given: &mut Bounds,
) -> Result<Option<u32>, AllocError>
    requires ready { IsReady nodes.now means.now }
    requires there { number < length nodes.now }
    requires nothing { given.old.items ≡ [] }
    requires way { IsOnWay means.now.finder (rule_keys (tree_at nodes.now number))
        (term_seats means.now.finder (rule_keys (tree_at nodes.now number))
        (tree_at nodes.now number)) from walk.old }
    ensures { IfOk result (FindsFit nodes.now means.now.rules.items (tree_at nodes.now number)
        from given.new.items) }
{
    let keys = number_keys(nodes, number);
    let mut rule = means.finder.next_number(nodes, number, &keys, from, walk)?;
    while (rule as usize) < means.rules.len() {
        if fits(nodes, &means.rules[rule as usize], number, given)? {
            return Ok(Some(rule));
        }
        means.finder.pass(rule, walk);
        rule = means
            .finder
            .next_number(nodes, number, &keys, rule + 1, walk)?;
    }
    Ok(None)
}

// By the canonical form, where it is another term.
fn content_choice(means: &Means<'_>, nodes: &Nodes, number: u32) -> Option<Choice>
    requires there { number < length nodes.now }
    ensures { Chooses nodes.now means.now (tree_at nodes.now number)
        (content_due means.now.theory.now.signature (tree_at nodes.now number)) result }
{
    let Shape::Application { op, .. } = nodes.shape(number) else {
        return None;
    };
    if is_canonical(means.theory, nodes, op, number) {
        return None;
    }
    Some(Choice::Content { op })
}

// Whether a rule's left side matches, and what its variables are given then.
fn fits(nodes: &Nodes, rule: &Rule, number: u32, given: &mut Bounds) -> Result<bool, AllocError>
    requires there { number < length nodes.now }
    requires nothing { given.old.items ≡ [] }
    ensures { IfOk result
        (Fits nodes.now rule.now (tree_at nodes.now number) given.new.items) }
{
    if extend(nodes, given, &rule.left, number)? {
        return Ok(true);
    }
    given.clear();
    Ok(false)
}
