//! That the goals of a script can be searched.
ghost use Rattle.std.specs.Prelude.{◌≡◌, map};
ghost use Rattle.std.specs.List.{AllByRecursion};
ghost use Rattle.circ_theory.specs.Pairs.{plain_pair};
ghost use Rattle.circ_conditional_search.specs.ConditionalSearch.{IsPairWithin, CanAllBeSearched};
ghost use Rattle.circ_script.specs.Script.{plain_script};
ghost use Rattle.circ_script.specs.Fit.{IsFit, IsScriptFor};
ghost use Rattle.circ_script.specs.declared.job.Job.TheVariants.{Prove, Differ};
ghost use Rattle.circ_found.specs.Searchable.{ArePlainlySearchable, IsWithinGoal, AreWithin};

use circ_script::Script;
use circ_theory::{Goal, Pair, Theory};

/// What is read as a script for a proof can be searched: its terms are within the limits, as every
/// term is.
pub fn searchable(theory: &Theory, script: &Script)
    requires fit { IsFit theory.now (plain_script script.now) }
    requires goals { IsScriptFor Prove (plain_script script.now) }
    ensures searchable { CanAllBeSearched theory.now (plain_script script.now).blocks }
    ensures same { (plain_script script.now).blocks
        ≡ map (λ b. b.items) script.now.blocks.items }
{
    blocks_within(script.blocks.as_slice());
}

/// What is read as a script for goals without conditions can be searched plainly.
pub fn plainly_searchable(theory: &Theory, script: &Script)
    requires fit { IsFit theory.now (plain_script script.now) }
    requires goals { IsScriptFor Differ (plain_script script.now) }
    ensures searchable { ArePlainlySearchable theory.now (plain_script script.now).blocks }
    ensures same { (plain_script script.now).blocks
        ≡ map (λ b. b.items) script.now.blocks.items }
{
    blocks_within(script.blocks.as_slice());
}

fn blocks_within(blocks: &[Vec<Goal>])
    ensures { AreWithin (map (λ b. b.items) blocks.now) }
{
    for block in blocks {
        goals_within(block.as_slice());
    }
}

fn goals_within(goals: &[Goal])
    ensures { AllByRecursion IsWithinGoal goals.now }
{
    for goal in goals {
        within(goal);
    }
}

fn within(goal: &Goal)
    ensures { IsWithinGoal goal.now }
{
    goal.left.known();
    goal.right.known();
    pairs_within(goal.conds.as_slice());
}

fn pairs_within(pairs: &[Pair])
    ensures { AllByRecursion IsPairWithin (map plain_pair pairs.now) }
{
    for pair in pairs {
        pair.left.known();
        pair.right.known();
    }
}
