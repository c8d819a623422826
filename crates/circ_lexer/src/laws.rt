//! What is proved of tokens, and examples that try their definitions. The functions do nothing: a
//! law is a contract.
ghost use Rattle.std.specs.Prelude.{◌≡◌, ℕ, List, [], ◌∷◌, ◌++◌, length, codes, Option};
ghost use Rattle.std.specs.List.{AllByRecursion};
ghost use Rattle.circ_lexer.specs.declared.tokens.Span.{Span};
ghost use Rattle.circ_lexer.specs.declared.fault.LexFault.{LexFault};
ghost use Rattle.circ_lexer.specs.declared.fault.LexFault.TheVariants.{NotAscii, Control};
ghost use Rattle.circ_lexer.specs.Cuts.{Cuts, AreSpans, AreOrdered, IsFirstBad};
ghost use Rattle.circ_lexer.specs.TokenList.{AreTokens, IsToken, spaced};

/// Bytes are cut into tokens in exactly one way, up to the end or to the first bad byte.
pub fn cut_in_one_way()
    ensures some { (bytes : List ℕ) →
        (ss : List Span) × ((o : Option LexFault) × Cuts 0 bytes ss o) }
    ensures one { (bytes : List ℕ) (ss us : List Span) (o p : Option LexFault) →
        Cuts 0 bytes ss o → Cuts 0 bytes us p → (us ≡ ss) × (p ≡ o) }
    ensures tokens { (bytes : List ℕ) (ws vs : List (List ℕ)) →
        AreTokens bytes ws → AreTokens bytes vs → vs ≡ ws }
{}

/// The spans of tokens are not empty, come in order and do not overlap, and the last ends within
/// the bytes.
pub fn spans_in_order()
    ensures { (bytes : List ℕ) (ss : List Span) →
        AreSpans bytes ss → AreOrdered 0 ss (length bytes) }
{}

/// Each token is a special byte or a run. So no token is empty, or has a blank or a bad byte in it.
pub fn tokens_are_tokens()
    ensures { (bytes : List ℕ) (ws : List (List ℕ)) →
        AreTokens bytes ws → AllByRecursion IsToken ws }
{}

/// Texts that can be tokens, written one after another with blanks between them, are the tokens of
/// what is written.
pub fn spaced_tokens()
    ensures { (ws : List (List ℕ)) → AllByRecursion IsToken ws → AreTokens (spaced ws) ws }
{}

/// A comment begins where a token would, as after a special byte, and not inside a token.
pub fn where_comments_begin()
    ensures after_special { AreTokens (codes "a(---)") (codes "a" ∷ codes "(" ∷ []) }
    ensures inside { AreTokens (codes "a---b ***") (codes "a---b" ∷ []) }
{}

/// The first bad byte outside comments is the fault, and the bytes of a comment may be bad.
pub fn which_byte_is_bad()
    ensures first { IsFirstBad (codes "a" ++ 7 ∷ 200 ∷ []) (Control 1) }
    ensures in_comment { IsFirstBad (codes "---" ++ 7 ∷ 10 ∷ 200 ∷ []) (NotAscii 5) }
{}
