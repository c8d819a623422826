//! Words that stand in spans of tokens. A span counts tokens.
ghost use Rattle.std.specs.Prelude.{◌≡◌, ◌≤◌};
ghost use Rattle.circ_lexer.specs.TokenList.{tokens_in, IsWithin};
ghost use Rattle.circ_script.specs.Items.{begins_with, set_aside};
ghost use Rattle.circ_script.specs.Steps.{GivesRest};

use circ_lexer::{Span, Tokens};
use circ_read::has_word;

// Whether a word stands first in a span, and the span without it.
#[derive(Clone, Copy)]
pub(crate) struct Aside {
    pub(crate) found: bool,
    pub(crate) rest: Span,
}

pub(crate) fn set_aside(tokens: &Tokens<'_>, span: Span, word: &[u8]) -> Aside
    requires { IsWithin tokens.now span }
    ensures found { result.found ≡ begins_with word.now (tokens_in tokens.now span) }
    ensures words { tokens_in tokens.now result.rest ≡
        set_aside word.now (tokens_in tokens.now span) }
    ensures within { IsWithin tokens.now result.rest }
    ensures from { span.from ≤ result.rest.from }
    ensures to { result.rest.to ≡ span.to }
{
    match after(tokens, span, word) {
        Some(rest) => Aside { found: true, rest },
        None => Aside {
            found: false,
            rest: span,
        },
    }
}

// The tokens after this first word.
pub(crate) fn after(tokens: &Tokens<'_>, span: Span, word: &[u8]) -> Option<Span>
    requires { IsWithin tokens.now span }
    ensures { GivesRest result tokens.now span word.now }
{
    if span.from == span.to {
        return None;
    }
    if !has_word(tokens, span.from, word) {
        return None;
    }
    Some(Span {
        from: span.from + 1,
        to: span.to,
    })
}
