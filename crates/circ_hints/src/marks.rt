//! Tokens that a hint points to.
use crate::drawing::Place;
use circ_lexer::{Span, Tokens};

/// Where at a token the mark stands.
#[derive(Clone, Copy, PartialEq, Eq)]
enum Side {
    /// Below the token.
    Below,
    /// Behind it.
    Behind,
    /// Below its last byte.
    LastByte,
}

/// A token by its number from 0, and what is said of it.
#[derive(Clone, Copy)]
pub(crate) struct Mark {
    token: usize,
    side: Side,
    /// Whether the token is named beside the cause.
    pub names: bool,
    pub says: &'static str,
}

impl Mark {
    /// A mark below a token.
    pub fn at(token: usize, says: &'static str) -> Mark {
        Mark {
            token,
            side: Side::Below,
            names: false,
            says,
        }
    }

    /// A mark below a token that is named.
    pub fn naming(token: usize, says: &'static str) -> Mark {
        Mark {
            token,
            side: Side::Below,
            names: true,
            says,
        }
    }

    /// A mark behind a token, where something is missing.
    pub fn behind(token: usize, says: &'static str) -> Mark {
        Mark {
            token,
            side: Side::Behind,
            names: false,
            says,
        }
    }

    /// A mark below the last byte of a token.
    pub fn at_last_byte(token: usize, says: &'static str) -> Mark {
        Mark {
            token,
            side: Side::LastByte,
            names: false,
            says,
        }
    }

    /// The place of the mark among the tokens' bytes, of which there are `count`.
    pub fn place(&self, tokens: &Tokens<'_>, count: usize) -> Place {
        let Some(Span { from, to }) = tokens.span(self.token) else {
            return Place {
                at: count,
                width: 1,
            };
        };
        match self.side {
            Side::Below => Place {
                at: from,
                width: to.saturating_sub(from),
            },
            Side::Behind => Place { at: to, width: 1 },
            Side::LastByte => Place {
                at: to.saturating_sub(1),
                width: 1,
            },
        }
    }
}
