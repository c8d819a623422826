//! The tokens of some bytes.
ghost use Rattle.std.specs.Prelude.{◌≡◌, ◌≤◌, List, length, Option};
ghost use Rattle.std.specs.List.{slice_get, slice_range};
ghost use Rattle.std.specs.Option.{option_copied};
ghost use Rattle.circ_lexer.specs.Cuts.{Cuts, AreSpans};
ghost use Rattle.circ_lexer.specs.TokenList.{tokens_of, AreTokens, GivesTokens, IsOutcome};
ghost use Rattle.circ_lexer.specs.declared.tokens.Span.{Span};
ghost use Rattle.circ_lexer.specs.declared.fault.LexFault.{LexFault};

use crate::LexFault;
use crate::scan::spans_of;
use std::alloc::Global;
use std::marker::Model;

/// Where a token stands, in bytes from the begin of its source, counted from 0.
#[derive(Debug, Drop, Clone, Copy, PartialEq, Eq)]
pub struct Span {
    /// The place of its first byte.
    pub from: usize,
    /// The place after its last byte.
    pub to: usize,
}

/// The tokens of some bytes, each a slice of them. It borrows the bytes, and takes 16 bytes of
/// memory a token.
#[derive(Drop)]
pub struct Tokens<'a> {
    source: &'a [u8],
    spans: Vec<Span>,
}

impl<'a> Model for Tokens<'a> {
    ghost use Rattle.circ_lexer.specs.Cuts.{AreSpans};
    ghost use Rattle.circ_lexer.specs.TokenList.{TokenList};

    ghost Value = { TokenList };

    ghost view = { λ a. record { source = a.source.now; spans = a.spans.items } };

    ghost invariant = { λ a. AreSpans a.source.now a.spans.items };
}

impl<'a> Tokens<'a> {
    /// The tokens of the bytes, from the left, in one pass. The first bad byte outside comments
    /// ends it, and is the fault; the other fault is want of memory.
    pub fn of(alloc: Global, bytes: &'a [u8]) -> Result<Tokens<'a>, LexFault>
        ensures gives { GivesTokens result bytes.now }
        ensures only { (ss : List Span) (o : Option LexFault) →
            Cuts 0 bytes.now ss o → IsOutcome result bytes.now ss o }
    {
        Ok(Tokens {
            source: bytes,
            spans: spans_of(alloc, bytes)?,
        })
    }

    /// Does nothing. Its contract is the law of all tokens: they are those of their source.
    pub fn known(&self)
        ensures spans { AreSpans self.now.source self.now.spans }
        ensures tokens { AreTokens self.now.source (tokens_of self.now) }
    {
        let _ = &self.spans;
    }

    /// How many tokens there are.
    pub fn count(&self) -> usize
        ensures spans { result ≡ length self.now.spans }
        ensures tokens { result ≡ length (tokens_of self.now) }
    {
        self.spans.len()
    }

    /// A token by its number from 0. `None` exactly where there is no such token.
    pub fn token(&self, n: usize) -> Option<&'a [u8]>
        ensures { option_copied result ≡ slice_get (tokens_of self.now) n }
    {
        let span = self.span(n)?;
        Some(slice_at(self.source, span))
    }

    /// Where a token stands, by its number from 0. `None` exactly where there is no such token.
    pub fn span(&self, n: usize) -> Option<Span>
        ensures { result ≡ slice_get self.now.spans n }
    {
        self.spans.get(n).copied()
    }
}

fn slice_at(bytes: &[u8], span: Span) -> &[u8]
    requires ahead { span.from ≤ span.to }
    requires within { span.to ≤ length bytes.now }
    ensures { result.now ≡ slice_range bytes.now span.from span.to }
{
    &bytes[span.from..span.to]
}
