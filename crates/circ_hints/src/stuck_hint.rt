//! The hints for a search that is stuck or goes on too long, and for a proof that is refused.
use crate::conditions::is_conditional_goal;
use crate::drawing::{Place, push_picture, push_position};
use crate::parts::{Part, behind_item, is, item_from};
use crate::run_words::{Asked, push_word};
use crate::seen_lines::Seen;
use crate::texts::written;
use circ_lexer::Tokens;
use std::alloc::{AllocError, Global};
use std::fmt::Write;

/// As many splits as stand inside one another at most.
const MOST_CASES: u64 = 8;

/// What a search lacks that is stuck, and the call that may show that the goal is false: where both
/// sides are constants, and no goal of the script has conditions. The script is empty if it is not
/// known.
pub fn stuck_end(
    alloc: Global,
    asked: Asked<'_>,
    seen: Seen,
    script: &[u8],
) -> Result<String, AllocError> {
    let mut out = String::new(alloc);
    let is_for_differ = seen.are_constants && !has_conditions(alloc, script);
    let done = push_end(&mut out, asked, seen.cases, is_for_differ);
    written(out, done)
}

/// Appends what a search lacks that is stuck in so many cases.
fn push_end(
    out: &mut String,
    asked: Asked<'_>,
    cases: u64,
    is_for_differ: bool,
) -> Result<(), AllocError> {
    let says = if cases >= MOST_CASES {
        "circ: 8 cases stand inside one another, as many as there may be\n"
    } else {
        "circ: no rule, hypothesis or lemma leads on, and nothing is left to split on\n"
    };
    out.push_str(says)?;
    if is_for_differ {
        push_difference(out, asked)
    } else {
        Ok(())
    }
}

/// Whether a goal of a script has conditions, which `differ` does not take.
fn has_conditions(alloc: Global, script: &[u8]) -> bool {
    match Tokens::of(alloc, script) {
        Ok(tokens) => has_conditional_goal(&tokens),
        Err(_) => false,
    }
}

fn has_conditional_goal(tokens: &Tokens<'_>) -> bool {
    let mut from = 0;
    for _ in 0..tokens.count() {
        let item = item_from(tokens, from);
        if !item.is_ended {
            return false;
        }
        if is_conditional_goal(tokens, item) {
            return true;
        }
        from = behind_item(tokens, from, item);
    }
    false
}

/// Appends the call that may show that a goal of these words is false.
fn push_difference(out: &mut String, asked: Asked<'_>) -> Result<(), AllocError> {
    out.push_str("circ: is it false? ")?;
    if asked.command() == "regex" {
        push_regex_words(out, asked)?;
    } else {
        out.push_str("circ")?;
        asked.push_as(out, "differ")?;
    }
    out.push('\n')
}

/// Appends the call that seeks a word of one language alone.
fn push_regex_words(out: &mut String, asked: Asked<'_>) -> Result<(), AllocError> {
    out.push_str("tools/regex-word")?;
    for number in 1..=2 {
        if let Some(word) = asked.expression(number) {
            push_word(out, word)?;
        }
    }
    Ok(())
}

/// The calls that may help with a search that finds no proof: the one that shows its turns, and the
/// one with the flags that the words lack, unless both sides are constants without a case, which no
/// flag makes equal. Empty if the words are of no search.
pub fn search_calls(alloc: Global, asked: Asked<'_>, seen: Seen) -> Result<String, AllocError> {
    let mut out = String::new(alloc);
    let done = push_calls(&mut out, asked, seen);
    written(out, done)
}

fn push_calls(out: &mut String, asked: Asked<'_>, seen: Seen) -> Result<(), AllocError> {
    let is_prove = asked.command() == "prove";
    if is_prove {
        push_trace(out, asked)?;
    }
    let is_decided = seen.are_constants && seen.cases == 0;
    if (is_prove || asked.command() == "regex") && !is_decided {
        push_with_flags(out, asked)
    } else {
        Ok(())
    }
}

/// Appends the call that shows the turns of the search of a `prove`.
fn push_trace(out: &mut String, asked: Asked<'_>) -> Result<(), AllocError> {
    out.push_str("circ: each turn of the search: circ")?;
    asked.push_as(out, "trace")?;
    out.push('\n')
}

/// Appends the call with the flags that the words lack, if they lack one.
fn push_with_flags(out: &mut String, asked: Asked<'_>) -> Result<(), AllocError> {
    let (rewrites, splits) = (asked.rewrites(), asked.splits());
    if rewrites && splits {
        return Ok(());
    }
    let rewrite = if rewrites { "" } else { " --rewrite" };
    let split = if splits { "" } else { " --split" };
    write!(out, "circ: is it found so? circ{rewrite}{split}")?;
    push_words(out, asked)
}

/// Appends the words as they are, and ends the line.
fn push_words(out: &mut String, asked: Asked<'_>) -> Result<(), AllocError> {
    asked.push_all(out)?;
    out.push('\n')
}

/// The call that shows the step that is refused.
pub fn explain_call(alloc: Global, asked: Asked<'_>) -> Result<String, AllocError> {
    let mut out = String::new(alloc);
    let done = push_explain(&mut out, asked);
    written(out, done)
}

fn push_explain(out: &mut String, asked: Asked<'_>) -> Result<(), AllocError> {
    out.push_str("circ: what stands there: tools/explain")?;
    push_words(out, asked)
}

/// The place in the script of the goal that is stuck, by the number of its block and how many goals
/// of the block were taken up with it, both from 1, where `derive` alone makes goals of others.
pub fn stuck_goal(
    alloc: Global,
    name: &str,
    script: &[u8],
    block: u32,
    goal: u64,
) -> Result<String, AllocError> {
    let mut out = String::new(alloc);
    let done = match Tokens::of(alloc, script) {
        Ok(tokens) => push_goal(&mut out, name, &tokens, script, u64::from(block), goal),
        Err(_) => Ok(()),
    };
    written(out, done)
}

/// Appends the place of the goal in the script, or else that of its block's first goal.
fn push_goal(
    out: &mut String,
    name: &str,
    tokens: &Tokens<'_>,
    script: &[u8],
    block: u64,
    goal: u64,
) -> Result<(), AllocError> {
    if let Some(place) = place_of(tokens, block, goal) {
        return push_stuck(out, name, script, place, block, goal, "");
    }
    match place_of(tokens, block, 1) {
        Some(place) => push_stuck(out, name, script, place, block, goal, MADE),
        None => Ok(()),
    }
}

/// What is said of a goal that does not stand in the script.
const MADE: &str = " is none of the script's: `derive` made it of those from here on";

/// Appends what is said of the goal at a place.
fn push_stuck(
    out: &mut String,
    name: &str,
    script: &[u8],
    place: Place,
    block: u64,
    goal: u64,
    says: &str,
) -> Result<(), AllocError> {
    push_position(out, name, script, place.at)?;
    writeln!(out, "stuck: goal {goal} of block {block}{says}")?;
    push_picture(out, script, place)
}

/// The place of a goal, if it stands in the script.
fn place_of(tokens: &Tokens<'_>, block: u64, goal: u64) -> Option<Place> {
    goal_at(tokens, block, goal)?.place(tokens)
}

/// The item of a goal by the numbers of its block and of it in the block, from 1.
fn goal_at(tokens: &Tokens<'_>, block: u64, goal: u64) -> Option<Part> {
    let mut blocks: u64 = 1;
    let mut goals: u64 = 0;
    let mut from = 0;
    for _ in 0..tokens.count() {
        let item = item_from(tokens, from);
        if !item.is_ended {
            return None;
        }
        from = behind_item(tokens, from, item);
        if is(tokens, item.from, b"coinduction") {
            blocks = blocks.saturating_add(1);
        } else if blocks == block && is(tokens, item.from, b"add") {
            goals = goals.saturating_add(1);
            if goals == goal {
                return Some(item);
            }
        }
    }
    None
}
