//! What is said of words that circ leaves out.
use crate::marks::Mark;
use crate::parts::{Part, first, is_either, is_same};
use circ_lexer::Tokens;

/// The mark of a word that is left out, in its statement.
pub(crate) fn left_out(tokens: &Tokens<'_>, part: Part, word: &[u8]) -> Mark {
    let says = says_of_word(tokens, part, word);
    match first(tokens, part.from, part.to, word) {
        Some(found) => Mark::naming(found, says),
        None => Mark::at(part.from, says),
    }
}

/// What to write in place of a word, by the statement in which it stands.
fn says_of_word(tokens: &Tokens<'_>, part: Part, word: &[u8]) -> &'static str {
    if is_either(tokens, part.from, b"op", b"ops") {
        return "circ does not have this attribute: leave it away";
    }
    if is_same(word, b"extending") || is_same(word, b"ex") {
        return "write `including`";
    }
    if is_same(word, b"subsort") || is_same(word, b"subsorts") {
        return "circ has no subsorts: write an operator from the one sort to the other";
    }
    "circ does not have this"
}
