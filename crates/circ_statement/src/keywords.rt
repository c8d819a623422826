//! The first words of statements, and names.
ghost use Rattle.std.specs.Prelude.{◌≡◌};
ghost use Rattle.circ_lexer.specs.Bytes.{is_special};
ghost use Rattle.circ_statement.specs.Words.{is_word, is_special_word, is_reserved, has_colon, is_name, is_left_out_word, is_inclusion_word, keyword_of};

// The kind of a statement.
#[derive(Clone, Copy, PartialEq, Eq, Debug)]
pub(crate) enum Keyword {
    Inclusion,
    Sorts,
    // One operator.
    Operator,
    // An operator for each word.
    Operators,
    Variables,
    Equation,
    // An equation with conditions.
    Conditional,
    Derivative,
    Cases,
    // A kind that is not read.
    LeftOut,
}

pub(crate) fn is_word(word: &[u8], text: &[u8]) -> bool
    ensures { result ≡ is_word word.now text.now }
{
    word == text
}

// The kind of a statement, by its first word.
pub(crate) fn keyword_of(word: &[u8]) -> Option<Keyword>
    ensures { result ≡ keyword_of word.now }
{
    if is_left_out_word(word) {
        return Some(Keyword::LeftOut);
    }
    if is_inclusion_word(word) {
        return Some(Keyword::Inclusion);
    }
    if is_word(word, b"sort") || is_word(word, b"sorts") {
        return Some(Keyword::Sorts);
    }
    if is_word(word, b"op") {
        return Some(Keyword::Operator);
    }
    if is_word(word, b"ops") {
        return Some(Keyword::Operators);
    }
    if is_word(word, b"var") || is_word(word, b"vars") {
        return Some(Keyword::Variables);
    }
    if is_word(word, b"eq") {
        return Some(Keyword::Equation);
    }
    if is_word(word, b"ceq") {
        return Some(Keyword::Conditional);
    }
    if is_word(word, b"derivative") {
        return Some(Keyword::Derivative);
    }
    if is_word(word, b"cases") {
        return Some(Keyword::Cases);
    }
    None
}

fn is_left_out_word(word: &[u8]) -> bool
    ensures { result ≡ is_left_out_word word.now }
{
    is_word(word, b"subsort")
        || is_word(word, b"subsorts")
        || is_word(word, b"mb")
        || is_word(word, b"cmb")
        || is_word(word, b"rl")
        || is_word(word, b"crl")
        || is_word(word, b"extending")
        || is_word(word, b"ex")
        || is_word(word, b"class")
        || is_word(word, b"msg")
}

fn is_inclusion_word(word: &[u8]) -> bool
    ensures { result ≡ is_inclusion_word word.now }
{
    is_word(word, b"including")
        || is_word(word, b"inc")
        || is_word(word, b"protecting")
        || is_word(word, b"pr")
}

/// Whether a token can be a name or a sort.
pub fn is_name(word: &[u8]) -> bool
    ensures { result ≡ is_name word.now }
{
    !(is_special_word(word) || has_colon(word) || is_reserved(word))
}

fn is_special_word(word: &[u8]) -> bool
    ensures { result ≡ is_special_word word.now }
{
    match word {
        [byte] => is_special(*byte),
        _ => false,
    }
}

fn is_special(byte: u8) -> bool
    ensures { result ≡ is_special byte }
{
    byte == b'('
        || byte == b')'
        || byte == b'['
        || byte == b']'
        || byte == b'{'
        || byte == b'}'
        || byte == b','
}

fn has_colon(word: &[u8]) -> bool
    ensures { result ≡ has_colon word.now }
{
    word.iter().any(|byte| *byte == b':')
}

fn is_reserved(word: &[u8]) -> bool
    ensures { result ≡ is_reserved word.now }
{
    is_word(word, b".") || is_word(word, b"=") || is_word(word, b"->")
}
