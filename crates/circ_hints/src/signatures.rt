//! Where a declaration of operators or variables leaves its form.
use crate::marks::Mark;
use crate::parts::{Part, first, is, next};
use crate::shapes::no_name;
use circ_lexer::Tokens;

/// The mark of variables: `var NAME : SORT`.
pub(crate) fn variables(tokens: &Tokens<'_>, part: Part) -> Mark {
    let Some(colon) = first(tokens, part.from, part.to, b":") else {
        return Mark::behind(
            part.to.saturating_sub(1),
            "`:` and a sort are expected, with blanks round the `:`",
        );
    };
    if let Some(number) = no_name(tokens, part.nth(1), colon) {
        return Mark::at(number, "a name is expected here");
    }
    if colon == part.nth(1) {
        return Mark::at(colon, "a name is expected before this");
    }
    if part.to == next(colon) {
        return Mark::behind(colon, "a sort is expected here");
    }
    Mark::behind(next(colon), "` .` is expected here")
}

/// The mark of operators: `op FORM : SORT.. -> SORT [ATTRIBUTES]`.
pub(crate) fn operator(tokens: &Tokens<'_>, part: Part) -> Mark {
    let Some(colon) = first(tokens, part.from, part.to, b":") else {
        return Mark::behind(
            part.to.saturating_sub(1),
            "`:` is expected behind the form, with blanks round it",
        );
    };
    if colon == part.nth(1) {
        return Mark::at(colon, "a form is expected before this");
    }
    let Some(arrow) = first(tokens, colon, part.to, b"->") else {
        return Mark::behind(
            part.to.saturating_sub(1),
            "`->` and the result's sort are expected",
        );
    };
    if let Some(number) = no_name(tokens, next(colon), arrow) {
        return Mark::at(number, "a sort is expected here");
    }
    if part.to == next(arrow) {
        return Mark::behind(arrow, "the result's sort is expected here");
    }
    behind_result(tokens, part, next(next(arrow)))
}

/// The mark of what stands behind the result's sort.
fn behind_result(tokens: &Tokens<'_>, part: Part, from: usize) -> Mark {
    if from >= part.to {
        return Mark::at(
            part.nth(1),
            "no operator has this form: its words have none of ( ) , : and are not . = ->",
        );
    }
    if !is(tokens, from, b"[") {
        return Mark::behind(
            from.saturating_sub(1),
            "` .` is expected here, or attributes in brackets",
        );
    }
    match first(tokens, from, part.to, b"]") {
        None => Mark::behind(part.to.saturating_sub(1), "`]` is expected here"),
        Some(close) if next(close) < part.to => Mark::behind(close, "` .` is expected here"),
        Some(_) => Mark::at(
            from,
            "attributes are prec N (0 to 127), left, right, assoc, comm, idem: each once, as the form allows",
        ),
    }
}
