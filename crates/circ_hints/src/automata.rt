//! What is expected of a statement of an automaton.
use crate::marks::Mark;
use crate::parts::Part;
use crate::shapes::{glued_stop, head};
use circ_lexer::Tokens;

/// The mark of a statement of an automaton whose form is wrong, by its number from 1.
pub(crate) fn automaton_shape(tokens: &Tokens<'_>, number: u64, part: Part) -> Mark {
    if number == 1 {
        return head(tokens, b"automaton");
    }
    if let Some(mark) = glued_stop(tokens, part) {
        return mark;
    }
    let says = match number {
        2 => "`letters NAME.. .` is expected here",
        3 => "`states N .` is expected here, N from 1 to 1,000",
        4 => "`start STATE .` is expected here",
        5 => "`accept STATE.. .` is expected here",
        _ => {
            "`from STATE TARGET.. .` is expected here for each state in order, a target for each letter, then `endautomaton`"
        }
    };
    Mark::at(part.from, says)
}
