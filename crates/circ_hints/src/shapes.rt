//! Where a statement of a theory leaves its form, and what was expected there.
use crate::marks::Mark;
use crate::openings::{begins_statement, begins_work, says_of_conditions};
use crate::parts::{Part, first, is, is_either, is_same, next, outside, without_open};
use crate::signatures::{operator, variables};
use circ_lexer::Tokens;
use circ_statement::is_name;

/// The mark of a statement of a theory whose form is wrong, by its number from 1.
pub(crate) fn statement_shape(tokens: &Tokens<'_>, source: &[u8], number: u64, part: Part) -> Mark {
    if number == 1 {
        return head(tokens, b"theory");
    }
    if is(tokens, part.from, b"endtheory") {
        return text_end(tokens, part.from);
    }
    if let Some(mark) = glued_stop(tokens, part) {
        return mark;
    }
    if !part.is_ended {
        return cut(tokens, part);
    }
    if !begins_statement(tokens, part.from) {
        return no_statement(tokens, part.from);
    }
    if let Some(mark) = missing_stop(tokens, source, part) {
        return mark;
    }
    by_word(tokens, part)
}

/// The mark of a word that begins no statement.
fn no_statement(tokens: &Tokens<'_>, number: usize) -> Mark {
    if begins_work(tokens, number) {
        return Mark::at(
            number,
            "this is an item of a script, which is a text of its own",
        );
    }
    Mark::at(number, "no statement begins with this word")
}

/// The mark of a head, which is `WORD NAME is`, perhaps in a parenthesis.
pub(crate) fn head(tokens: &Tokens<'_>, word: &[u8]) -> Mark {
    let from = without_open(tokens, 0);
    if !is(tokens, from, word) {
        return Mark::at(
            from,
            "the text begins with `theory NAME is`, or `automaton NAME is`",
        );
    }
    if !names(tokens, next(from), next(next(from))) {
        return Mark::at(next(from), "a name is expected here");
    }
    Mark::at(next(next(from)), "`is` is expected here")
}

/// Whether all tokens of a range can be names.
pub(crate) fn names(tokens: &Tokens<'_>, from: usize, to: usize) -> bool {
    no_name(tokens, from, to).is_none()
}

/// The first token of a range that can be no name.
pub(crate) fn no_name(tokens: &Tokens<'_>, from: usize, to: usize) -> Option<usize> {
    for number in from..to {
        match tokens.token(number) {
            Some(token) if is_name(token) => {}
            _ => return Some(number),
        }
    }
    None
}

/// The first token that ends with a stop which should stand by itself.
pub(crate) fn glued_stop(tokens: &Tokens<'_>, part: Part) -> Option<Mark> {
    for number in part.from..part.to {
        if has_glued_stop(tokens, number) {
            return Some(Mark::at_last_byte(number, "the stop needs a blank before it"));
        }
    }
    None
}

/// Whether a token ends with a stop, and is more than it.
fn has_glued_stop(tokens: &Tokens<'_>, number: usize) -> bool {
    match tokens.token(number) {
        Some(token) => token.len() > 1 && token.ends_with(b"."),
        None => false,
    }
}

/// The mark of an `endtheory` behind which something stands, or not its parenthesis.
fn text_end(tokens: &Tokens<'_>, number: usize) -> Mark {
    let is_open = is(tokens, 0, b"(");
    let is_closed = is(tokens, next(number), b")");
    if is_closed && !is_open {
        return Mark::at(next(number), "nothing opens this parenthesis");
    }
    let last = if is_closed { next(number) } else { number };
    if next(last) < tokens.count() {
        return Mark::behind(
            last,
            "the text ends here: one theory a file; goals are a script",
        );
    }
    Mark::behind(last, "`)` is expected here, since the text begins with `(`")
}

/// The mark of what stands behind the last stop of a theory and is no end.
fn cut(tokens: &Tokens<'_>, part: Part) -> Mark {
    match first(tokens, part.from, part.to, b"endtheory") {
        Some(number) => Mark::behind(number.saturating_sub(1), "` .` is expected here"),
        None => Mark::behind(
            part.to.saturating_sub(1),
            "the text is cut here: ` .` or `endtheory` is expected",
        ),
    }
}

/// The place before a later line that begins a statement.
fn missing_stop(tokens: &Tokens<'_>, source: &[u8], part: Part) -> Option<Mark> {
    for number in part.from..part.to {
        if number != part.from
            && begins_statement(tokens, number)
            && begins_line(tokens, source, number)
        {
            return Some(Mark::behind(number.saturating_sub(1), "` .` is expected here"));
        }
    }
    None
}

/// Whether a token stands on another line than the one before it.
fn begins_line(tokens: &Tokens<'_>, source: &[u8], number: usize) -> bool {
    let Some(before) = tokens.span(number.saturating_sub(1)) else {
        return false;
    };
    let Some(word) = tokens.span(number) else {
        return false;
    };
    has_line_feed(source, before.to, word.from)
}

/// Whether a line feed stands in a range of bytes.
fn has_line_feed(bytes: &[u8], from: usize, to: usize) -> bool {
    for n in from..to.min(bytes.len()) {
        if bytes[n] == b'\n' {
            return true;
        }
    }
    false
}

/// The mark of a statement, by its first word.
fn by_word(tokens: &Tokens<'_>, part: Part) -> Mark {
    if is_either(tokens, part.from, b"sort", b"sorts") {
        return list_of_names(tokens, part);
    }
    if is_either(tokens, part.from, b"op", b"ops") {
        return operator(tokens, part);
    }
    if is_either(tokens, part.from, b"var", b"vars") {
        return variables(tokens, part);
    }
    by_other_word(tokens, part)
}

/// The mark of a statement that declares no names by itself.
fn by_other_word(tokens: &Tokens<'_>, part: Part) -> Mark {
    if is(tokens, part.from, b"eq") {
        return equation(tokens, part);
    }
    if is(tokens, part.from, b"ceq") {
        return conditional(tokens, part, CONDITIONAL_EQUATION);
    }
    if is(tokens, part.from, b"cases") {
        return cases(tokens, part);
    }
    one_name(tokens, part)
}

/// The form of an equation with conditions.
const CONDITIONAL_EQUATION: &str =
    "a conditional equation is `ceq TERM = TERM if TERM = TERM /\\ .. .`";

/// The mark of a statement that takes names.
fn list_of_names(tokens: &Tokens<'_>, part: Part) -> Mark {
    match no_name(tokens, part.nth(1), part.to) {
        Some(number) => Mark::at(number, "a name is expected here"),
        None => Mark::behind(part.from, "a name is expected here"),
    }
}

/// The mark of a statement that takes one name.
fn one_name(tokens: &Tokens<'_>, part: Part) -> Mark {
    if part.to > part.nth(2) {
        return Mark::behind(part.nth(1), "` .` is expected here");
    }
    list_of_names(tokens, part)
}

/// The mark of an equation: one `=` stands in it.
pub(crate) fn equation(tokens: &Tokens<'_>, part: Part) -> Mark {
    let Some(sign) = first(tokens, part.from, part.to, b"=") else {
        return no_sign(tokens, part);
    };
    match first(tokens, next(sign), part.to, b"=") {
        Some(second) => second_sign(tokens, part, sign, second),
        None => Mark::at(part.from, "an equation is `eq TERM = TERM .`"),
    }
}

/// The mark of an equation without `=`.
fn no_sign(tokens: &Tokens<'_>, part: Part) -> Mark {
    match glued_sign(tokens, part) {
        Some(mark) => mark,
        None => Mark::behind(part.to.saturating_sub(1), "`=` and a term are expected"),
    }
}

/// The mark of an equation with a second `=`: of the `if` between the two, or of the second.
fn second_sign(tokens: &Tokens<'_>, part: Part, sign: usize, second: usize) -> Mark {
    if let Some(number) = outside(tokens, sign, second, b"if") {
        if let Some(says) = says_of_conditions(tokens, part, number) {
            return Mark::at(number, says);
        }
    }
    Mark::at(second, "a second `=`: is a ` .` missing before?")
}

/// The first token with a `=` in it that should stand by itself.
fn glued_sign(tokens: &Tokens<'_>, part: Part) -> Option<Mark> {
    for number in part.from..part.to {
        if has_glued_sign(tokens, number) {
            let says = "`=` stands by itself, with a blank on each side";
            return Some(Mark::naming(number, says));
        }
    }
    None
}

/// Whether a token has a `=` in it that should stand by itself.
fn has_glued_sign(tokens: &Tokens<'_>, number: usize) -> bool {
    match tokens.token(number) {
        Some(token) => token.len() > 1 && token.contains(&b'=') && !is_order(token),
        None => false,
    }
}

/// Whether a token with a `=` in it is a common word of an operator.
fn is_order(token: &[u8]) -> bool {
    is_same(token, b"<=") || is_same(token, b"=<") || is_same(token, b">=") || is_same(token, b"=>")
}

/// The mark of an equation or a goal with conditions, which has this form.
pub(crate) fn conditional(tokens: &Tokens<'_>, part: Part, form: &'static str) -> Mark {
    let Some(number) = outside(tokens, part.from, part.to, b"if") else {
        return Mark::behind(
            part.to.saturating_sub(1),
            "`if` and conditions are expected",
        );
    };
    match glued_sign(tokens, part) {
        Some(mark) => mark,
        None => Mark::at(number, form),
    }
}

/// The mark of a case list.
fn cases(tokens: &Tokens<'_>, part: Part) -> Mark {
    if !names(tokens, part.nth(1), part.nth(2)) {
        return Mark::at(part.nth(1), "a sort is expected here");
    }
    if !is(tokens, part.nth(2), b"by") {
        return Mark::at(part.nth(2), "`by` is expected here");
    }
    match no_name(tokens, part.nth(3), part.to) {
        Some(number) => Mark::at(number, "the name of a constant is expected here"),
        None => Mark::at(part.from, "a case list is `cases SORT by NAME.. .`"),
    }
}
