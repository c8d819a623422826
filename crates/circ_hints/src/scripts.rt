//! Where an item of a script leaves its form, and what was expected there.
use crate::marks::Mark;
use crate::parts::{Part, first, is, next};
use crate::shapes::{conditional, equation, glued_stop};
use crate::signatures::variables;
use crate::unreadable_hint::SourceKind;
use circ_lexer::Tokens;

/// The mark of an item whose form is wrong.
pub(crate) fn item_shape(tokens: &Tokens<'_>, part: Part, kind: SourceKind) -> Mark {
    if let Some(mark) = glued_stop(tokens, part) {
        return mark;
    }
    if !part.is_ended {
        return Mark::behind(
            part.to.saturating_sub(1),
            "the text is cut here: ` .` is expected",
        );
    }
    if is(tokens, part.from, b"var") || is(tokens, part.from, b"vars") {
        return variables(tokens, part);
    }
    if kind == SourceKind::Terms {
        term_item(tokens, part)
    } else {
        goal_item(tokens, part)
    }
}

/// The mark of an item of a script of goals that declares nothing.
fn goal_item(tokens: &Tokens<'_>, part: Part) -> Mark {
    if is(tokens, part.from, b"add") {
        return goal(tokens, part);
    }
    if is(tokens, part.from, b"coinduction") {
        return Mark::behind(part.from, "` .` is expected here");
    }
    if is(tokens, part.from, b"reduce") || is(tokens, part.from, b"red") {
        return Mark::at(
            part.from,
            "this is an item of `circ reduce`, not of `circ prove`",
        );
    }
    Mark::at(
        part.from,
        "an item is `var NAME : SORT .`, `add goal TERM = TERM .` or `coinduction .`",
    )
}

/// The mark of an item of a script of `reduce` that declares nothing.
fn term_item(tokens: &Tokens<'_>, part: Part) -> Mark {
    if is(tokens, part.from, b"reduce") || is(tokens, part.from, b"red") {
        return unpaired(part);
    }
    if is(tokens, part.from, b"add") || is(tokens, part.from, b"coinduction") {
        return Mark::at(
            part.from,
            "this is an item of `circ prove`, not of `circ reduce`",
        );
    }
    Mark::at(
        part.from,
        "an item is `var NAME : SORT .` or `reduce TERM .`",
    )
}

/// The mark of an item with one parenthesis of the two round it.
fn unpaired(part: Part) -> Mark {
    Mark::at(part.from, "parentheses round an item come in pairs")
}

/// The form of a goal with conditions.
const CONDITIONAL_GOAL: &str =
    "a goal with conditions, not for `differ`, is `add cgoal TERM = TERM if TERM = TERM /\\ .. .`";

/// The mark of a goal.
fn goal(tokens: &Tokens<'_>, part: Part) -> Mark {
    let has_conditions = is(tokens, part.nth(1), b"cgoal");
    if !has_conditions && !is(tokens, part.nth(1), b"goal") {
        return Mark::at(part.nth(1), "`goal` or `cgoal` is expected here");
    }
    if let Some(number) = next_item(tokens, part) {
        return Mark::behind(number.saturating_sub(1), "` .` is expected here");
    }
    if has_conditions {
        return conditional(tokens, part, CONDITIONAL_GOAL);
    }
    if has_one_sign(tokens, part) {
        return unpaired(part);
    }
    equation(tokens, part)
}

/// The first token behind a goal's first words that begins another item.
fn next_item(tokens: &Tokens<'_>, part: Part) -> Option<usize> {
    for number in part.nth(2)..part.to {
        if is(tokens, number, b"add") || is(tokens, number, b"coinduction") {
            return Some(number);
        }
    }
    None
}

/// Whether just one `=` stands in an item.
fn has_one_sign(tokens: &Tokens<'_>, part: Part) -> bool {
    match first(tokens, part.from, part.to, b"=") {
        Some(sign) => first(tokens, next(sign), part.to, b"=").is_none(),
        None => false,
    }
}
