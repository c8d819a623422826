//! Tokens as numbers of texts.
ghost use Rattle.std.specs.Prelude.{◌≡◌, ◌≤◌, ◌+◌, ◌^◌, length, IfOk, OnOk};
ghost use Rattle.circ_lexer.specs.TokenList.{tokens_in, IsWithin};
ghost use Rattle.circ_mixfix.specs.Coding.{AreNumbers};
ghost use Rattle.circ_mixfix.specs.WordLists.{GrowsTo};

use crate::words::Words;
use circ_lexer::{Span, Tokens};
use std::alloc::{AllocError, Global};

// The numbers of the span's tokens, whose texts are added.
pub fn numbers<'a>(
    alloc: Global,
    words: &mut Words<'a>,
    tokens: &Tokens<'a>,
    span: Span,
) -> Result<Vec<u32>, AllocError>
    requires span { IsWithin tokens.now span }
    requires few { length words.old + length (tokens_in tokens.now span) ≤ 2 ^ 32 }
    ensures numbers { IfOk result (λ v. AreNumbers words.new v.items (tokens_in tokens.now span)) }
    ensures grows { OnOk result (GrowsTo words.old words.new (length (tokens_in tokens.now span))) }
{
    let mut out = Vec::with_capacity(alloc, span.to - span.from)?;
    for place in span.from..span.to {
        if let Some(token) = tokens.token(place) {
            out.push(words.add(token)? as u32)?;
        }
    }
    Ok(out)
}
