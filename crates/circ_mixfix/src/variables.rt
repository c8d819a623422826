//! Variables of the chart, for the tokens that are variables.
ghost use Rattle.std.specs.Prelude.{◌≡◌, ◌↔◌, ◌⊎◌, ◌≤◌, ◌<◌, ◌+◌, ◌++◌, ◌∷◌, ◌^◌, ◌==◌, length};
ghost use Rattle.std.specs.Prelude.{[], codes, IsTrue, IfOk, OnOk, Some};
ghost use Rattle.std.specs.List.{slice_get, list_any};
ghost use Rattle.std.specs.Option.{option_map};
ghost use Rattle.circ_mixfix.specs.Answers.{declared_by};
ghost use Rattle.circ_mixfix.specs.Spells.{HasNoColon};
ghost use Rattle.circ_mixfix.specs.Variables.{vars_in, variables_named, AddsDeclared, IsCut};
ghost use Rattle.circ_mixfix.specs.Variables.{GivesVariable, AddsVariables, HasVariables};
ghost use Rattle.circ_mixfix.specs.WordLists.{GrowsTo};

use crate::words::Words;
use circ_form::Text;
use circ_spelling::Variable;
use circ_theory::Theory;
use std::alloc::{AllocError, Global};

// Where variables are declared.
#[derive(Clone, Copy)]
pub enum Declarations<'a> {
    // In this list of names and sorts.
    Listed(&'a [(Text, u32)]),
    // In the theory.
    OfTheory,
}

// What tokens are read in.
#[derive(Clone, Copy)]
pub struct Scope<'a> {
    pub theory: &'a Theory,
    pub declared: Declarations<'a>,
    // Whether the hole of a derivative can stand there.
    pub hole: bool,
}

// Adds a variable for a declared one, if that has this name.
fn push_one(
    out: &mut Vec<Variable>,
    var: &(Text, u32),
    word: u32,
    name: &[u8],
) -> Result<(), AllocError>
    ensures { OnOk result (out.new.items ≡ out.old.items ++ variables_named
        (declared_by (var.now ∷ [])) word name.now) }
{
    if var.0.bytes() != name {
        return Ok(());
    }
    out.push(Variable {
        word,
        number: word,
        sort: var.1,
    })?;
    Ok(())
}

// Adds a variable for each declared one of this name.
fn push_listed(
    out: &mut Vec<Variable>,
    vars: &[(Text, u32)],
    word: u32,
    name: &[u8],
) -> Result<(), AllocError>
    ensures { OnOk result (out.new.items ≡ out.old.items ++ variables_named (declared_by vars.now)
        word name.now) }
{
    for var in vars {
        push_one(out, var, word, name)?;
    }
    Ok(())
}

// Adds a variable for each variable of the theory that has this name: there is one at most.
fn push_of_theory(
    out: &mut Vec<Variable>,
    theory: &Theory,
    word: u32,
    name: &[u8],
) -> Result<(), AllocError>
    ensures { OnOk result (AddsDeclared theory.now.variables word name.now out.old.items
        out.new.items) }
{
    theory.known_names();
    let Some(number) = theory.var_named(name) else {
        return Ok(());
    };
    let Some((_, sort)) = theory.var(number) else {
        return Ok(());
    };
    out.push(Variable {
        word,
        number: word,
        sort,
    })?;
    Ok(())
}

fn is_parenthesis(text: &[u8]) -> bool
    ensures { IsTrue result ↔ ((text.now ≡ codes "(") ⊎ (text.now ≡ codes ")")) }
{
    text == b"(".as_slice() || text == b")".as_slice()
}

// Adds a variable for each declared one that has this name.
fn push_declared(
    out: &mut Vec<Variable>,
    scope: &Scope<'_>,
    word: u32,
    name: &[u8],
) -> Result<(), AllocError>
    ensures { OnOk result (AddsDeclared (vars_in scope.now) word name.now out.old.items
        out.new.items) }
{
    match scope.declared {
        Declarations::Listed(vars) => push_listed(out, vars, word, name)?,
        Declarations::OfTheory => push_of_theory(out, scope.theory, word, name)?,
    }
    Ok(())
}

// What stands before the first colon, and what stands behind it.
fn cut(text: &[u8]) -> Option<(&[u8], &[u8])>
    ensures { IsCut text.now (option_map (λ r. (r.0.now, r.1.now)) result) }
{
    for at in 0..text.len() {
        if text[at] == b':' {
            return Some((&text[..at], &text[at + 1..]));
        }
    }
    None
}

fn has_colon(text: &[u8]) -> bool
    ensures { result ≡ list_any (λ b. b == 58) text.now }
{
    text.iter().any(|byte| *byte == b':')
}

// The name and the sort of a variable that is written as name, colon and sort. The hole has the
// empty name.
fn written<'a>(scope: &Scope<'_>, name: &'a [u8], sort: &[u8]) -> Option<(&'a [u8], u32)>
    requires { HasNoColon name.now }
    ensures { GivesVariable scope.now.theory.now.signature (vars_in scope.now) scope.now.hole
        (name.now ++ 58 ∷ sort.now) (option_map (λ r. (r.0.now, r.1)) result) }
{
    if name.is_empty() {
        return None;
    }
    if sort.is_empty() {
        return None;
    }
    if has_colon(sort) {
        return None;
    }
    scope.theory.known_names();
    let number = scope.theory.sort_named(sort)?;
    if name != b"*".as_slice() {
        return Some((name, number));
    }
    if scope.hole {
        return Some((b"".as_slice(), number));
    }
    None
}

// Adds the variable that is written as name, colon and sort, if it is one. The name's text is
// added.
fn push_written<'a>(
    out: &mut Vec<Variable>,
    words: &mut Words<'a>,
    scope: &Scope<'_>,
    word: u32,
    name: &'a [u8],
    sort: &[u8],
) -> Result<(), AllocError>
    requires name { HasNoColon name.now }
    requires few { length words.old < 2 ^ 32 }
    ensures adds { OnOk result (AddsVariables scope.now.theory.now.signature (vars_in scope.now)
        scope.now.hole words.new word (name.now ++ 58 ∷ sort.now) out.old.items out.new.items) }
    ensures grows { OnOk result (GrowsTo words.old words.new 1) }
{
    let Some((name, sort)) = written(scope, name, sort) else {
        return Ok(());
    };
    let number = words.add(name)? as u32;
    out.push(Variable { word, number, sort })?;
    Ok(())
}

// Adds the variables that the text of a number is.
fn push_variables<'a>(
    out: &mut Vec<Variable>,
    words: &mut Words<'a>,
    scope: &Scope<'_>,
    word: u32,
    text: &'a [u8],
) -> Result<(), AllocError>
    requires is { slice_get words.old word ≡ Some text.now }
    requires few { length words.old < 2 ^ 32 }
    ensures adds { OnOk result (AddsVariables scope.now.theory.now.signature (vars_in scope.now)
        scope.now.hole words.new word text.now out.old.items out.new.items) }
    ensures grows { OnOk result (GrowsTo words.old words.new 1) }
{
    match cut(text) {
        Some((name, sort)) => push_written(out, words, scope, word, name, sort)?,
        None => {
            if !is_parenthesis(text) {
                push_declared(out, scope, word, text)?;
            }
        }
    }
    Ok(())
}

// The variables that the first texts are. Names that are written are added to the texts.
pub fn variables<'a>(
    alloc: Global,
    words: &mut Words<'a>,
    scope: &Scope<'_>,
    count: u32,
) -> Result<Vec<Variable>, AllocError>
    requires count { count ≤ length words.old }
    requires few { length words.old + count ≤ 2 ^ 32 }
    ensures variables { IfOk result (λ v. HasVariables scope.now.theory.now.signature
        (vars_in scope.now) scope.now.hole words.new count v.items) }
    ensures grows { OnOk result (GrowsTo words.old words.new count) }
{
    let mut out = Vec::new(alloc);
    for word in 0..count {
        if let Some(text) = words.text(word as usize) {
            push_variables(&mut out, words, scope, word, text)?;
        }
    }
    Ok(out)
}
