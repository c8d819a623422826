//! Texts, and the forms in which operators are written.
ghost use Rattle.std.specs.Prelude.{◌≡◌, ◌≤◌, ◌<◌, ◌∷◌, IfOk, length, take, drop, position};
ghost use Rattle.std.specs.List.{list_any};
ghost use Rattle.circ_form.specs.Form.{is_special, is_word, is_bad_byte, is_reserved};
ghost use Rattle.circ_form.specs.Form.{is_bad_word, is_bad_piece, first_word, pieces_of, text_of};
ghost use Rattle.circ_form.specs.Form.{piece_of, IsForm, ReadsForm};
ghost use Rattle.circ_form.specs.Form.{has_hole};

use std::alloc::{AllocError, AllocFailed, Global};
use std::marker::Model;
use thiserror::Error;

/// A list of bytes.
#[derive(Drop)]
pub struct Text {
    bytes: Vec<u8>,
}

impl Model for Text {
    ghost use Rattle.std.specs.Prelude.{List, ℕ};

    ghost Value = { List ℕ };

    ghost view = { λ a. a.bytes.items };
}

impl Text {
    /// A copy of the bytes.
    pub fn of(alloc: Global, bytes: &[u8]) -> Result<Text, AllocError>
        ensures { IfOk result (λ t. t ≡ bytes.now) }
    {
        Ok(Text {
            bytes: Vec::from_slice(alloc, bytes)?,
        })
    }

    /// The bytes.
    pub fn bytes(&self) -> &[u8]
        ensures { result.now ≡ self.now }
    {
        self.bytes.as_slice()
    }
}

/// A part of a form.
#[derive(Drop)]
pub enum Piece {
    /// The place of an argument.
    Hole,
    /// A token.
    Word(Text),
}

/// How an operator is written: words, and holes where its arguments go. A form without holes is
/// followed by its arguments in parentheses.
#[derive(Drop)]
pub struct Form {
    pieces: Vec<Piece>,
}

impl Model for Form {
    ghost use Rattle.std.specs.Prelude.{List};
    ghost use Rattle.circ_form.specs.declared.forms.Piece.{Piece};
    ghost use Rattle.circ_form.specs.Form.{form_code, IsForm};

    ghost Value = { List Piece };

    ghost coded = { form_code };

    ghost view = { λ a. a.pieces.items };

    ghost invariant = { λ a. IsForm a.pieces.items };
}

/// Why a text is no form.
#[derive(Debug, Drop, Clone, Copy, PartialEq, Eq, Error)]
pub enum FormFault {
    /// It has no word.
    #[error("a form without a word")]
    NoWord,
    /// It has a word that another use in texts rules out.
    #[error("a word that no operator can have")]
    BadWord,
    /// Memory ran out.
    #[error("out of memory")]
    Memory,
}

impl From<AllocError> for FormFault {
    ghost use Rattle.std.specs.Prelude.{◌≡◌};
    ghost use Rattle.circ_form.specs.declared.forms.FormFault.TheVariants.{Memory};

    ghost from_gives = { λ _ e. e ≡ Memory };

    fn from(_: AllocError) -> FormFault {
        FormFault::Memory
    }
}

impl<T: Drop> From<AllocFailed<T>> for FormFault {
    ghost use Rattle.std.specs.Prelude.{◌≡◌};
    ghost use Rattle.circ_form.specs.declared.forms.FormFault.TheVariants.{Memory};

    ghost from_gives = { λ _ e. e ≡ Memory };

    fn from(_: AllocFailed<T>) -> FormFault {
        FormFault::Memory
    }
}

impl Form {
    /// The form that a text spells: `_` is a hole, each of `[ ] { }` is a word by itself, and what
    /// stands between these is a word.
    pub fn read(alloc: Global, text: &[u8]) -> Result<Form, FormFault>
        ensures { ReadsForm result text.now }
    {
        let pieces = cut(alloc, text)?;
        if !has_word(pieces.as_slice()) {
            return Err(FormFault::NoWord);
        }
        if has_bad_word(pieces.as_slice()) {
            return Err(FormFault::BadWord);
        }
        Ok(Form { pieces })
    }

    /// The pieces from the left.
    pub fn pieces(&self) -> &[Piece]
        ensures { result.now ≡ self.now }
    {
        self.pieces.as_slice()
    }

    /// Whether an argument goes into the form, and not behind it.
    pub fn has_hole(&self) -> bool
        ensures { result ≡ has_hole self.now }
    {
        self.pieces.iter().any(|piece| match piece {
            Piece::Hole => true,
            Piece::Word(_) => false,
        })
    }

    /// The first word.
    pub fn first_word(&self) -> &[u8]
        ensures { result.now ≡ first_word self.now }
    {
        for piece in &self.pieces {
            if let Piece::Word(word) = piece {
                return word.bytes();
            }
        }
        &[]
    }

    /// Does nothing. Its contract is the law of each form: its text spells it.
    pub fn known(&self)
        ensures { IsForm self.now }
    {
        let _ = &self.pieces;
    }

    /// The text that the form was read from.
    pub fn text(&self, alloc: Global) -> Result<Text, AllocError>
        ensures { IfOk result (λ t. t ≡ text_of self.now) }
    {
        Ok(Text {
            bytes: self.spell(alloc)?,
        })
    }

    /// The same as bytes.
    pub fn spell(&self, alloc: Global) -> Result<Vec<u8>, AllocError>
        ensures { IfOk result (λ v. v.items ≡ text_of self.now) }
    {
        let mut bytes = Vec::new(alloc);
        for piece in &self.pieces {
            match piece {
                Piece::Hole => bytes.push(b'_')?,
                Piece::Word(word) => bytes.extend_from_slice(word.bytes())?,
            }
        }
        Ok(bytes)
    }
}

fn cut(alloc: Global, text: &[u8]) -> Result<Vec<Piece>, AllocError>
    ensures { IfOk result (λ v. v.items ≡ pieces_of text.now) }
{
    let mut pieces = Vec::new(alloc);
    let mut rest = text;
    while !rest.is_empty() {
        let (first, after) = rest.split_at(piece_len(rest));
        pieces.push(one_piece(alloc, first)?)?;
        rest = after;
    }
    Ok(pieces)
}

fn one_piece(alloc: Global, bytes: &[u8]) -> Result<Piece, AllocError>
    ensures { IfOk result (λ p. p ≡ piece_of bytes.now) }
{
    match bytes {
        [b'_'] => Ok(Piece::Hole),
        _ => Ok(Piece::Word(Text::of(alloc, bytes)?)),
    }
}

fn piece_len(rest: &[u8]) -> usize
    requires { 0 < length rest.now }
    ensures some { 0 < result }
    ensures within { result ≤ length rest.now }
    ensures cut { pieces_of rest.now ≡ piece_of (take result rest.now) ∷
        pieces_of (drop result rest.now) }
{
    if is_special(rest[0]) {
        return 1;
    }
    special_at(rest).unwrap_or(rest.len())
}

fn special_at(bytes: &[u8]) -> Option<usize>
    ensures { result ≡ position is_special bytes.now }
{
    bytes.iter().position(|byte| is_special(*byte))
}

fn is_special(byte: u8) -> bool
    ensures { result ≡ is_special byte }
{
    byte == b'_' || byte == b'[' || byte == b']' || byte == b'{' || byte == b'}'
}

fn has_word(pieces: &[Piece]) -> bool
    ensures { result ≡ list_any is_word pieces.now }
{
    pieces.iter().any(|piece| match piece {
        Piece::Hole => false,
        Piece::Word(_) => true,
    })
}

fn has_bad_word(pieces: &[Piece]) -> bool
    ensures { result ≡ list_any is_bad_piece pieces.now }
{
    pieces.iter().any(|piece| match piece {
        Piece::Hole => false,
        Piece::Word(word) => is_bad(word.bytes()),
    })
}

fn is_bad(word: &[u8]) -> bool
    ensures { result ≡ is_bad_word word.now }
{
    if is_reserved(word) {
        return true;
    }
    has_bad_byte(word)
}

fn is_reserved(word: &[u8]) -> bool
    ensures { result ≡ is_reserved word.now }
{
    if word == b".".as_slice() {
        return true;
    }
    if word == b"=".as_slice() {
        return true;
    }
    word == b"->".as_slice()
}

fn has_bad_byte(word: &[u8]) -> bool
    ensures { result ≡ list_any is_bad_byte word.now }
{
    word.iter().any(|byte| is_bad_byte(*byte))
}

fn is_bad_byte(byte: u8) -> bool
    ensures { result ≡ is_bad_byte byte }
{
    byte == b'(' || byte == b')' || byte == b',' || byte == b':' || byte < b'!' || byte > b'~'
}
