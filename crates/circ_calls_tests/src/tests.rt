//! What no clause says: that a call does not want memory where there is enough.
ghost use Rattle.std.specs.Prelude.{IsTrue};
ghost use Rattle.circ_mixfix.specs.Answers.{declared_by, HaveSorts};
ghost use Rattle.circ_proof.specs.PlainProof.{plain_proof};
ghost use Rattle.circ_proof.specs.Proof.{ProofFor};

use circ_aci::{canonical, content, same_content};
use circ_calls::{Admission, admit, apply, follow, follow_all, follow_why};
use circ_check::{Verdict, check, derived};
use circ_file::laws::decoded_bytes_are_the_text;
use circ_file::{decode, encode};
use circ_form::{Form, FormFault, Text};
use circ_lexer::{LexFault, Span, Tokens};
use circ_lib::lookup;
use circ_match::{match_pair, match_term};
use circ_memo::normalise;
use circ_mixfix::{ParseFault, Reading, parse_one, parse_pair, print};
use circ_outer::{SureShelf, SureSink};
use circ_proof::{Chain, Link, Proof, State, Step, Why};
use circ_read::read_theory;
use circ_regex::lang_theory;
use circ_replay::TableBuilder;
use circ_show::{theory_text, unobserved};
use circ_special::Gamma;
use circ_term::{Path, Subst, Term, TermFault};
use circ_theory::{Goal, Pair, Pairs, Theory, in_order, parameters_in_order};
use circ_top::sure::circ_in_memory;
use std::alloc::{AllocError, Global};
use std::collections::VecDeque;

// Each of the variables 0 and 1 is bound to the other.
fn exchanged(subst: &mut Subst) -> Result<Vec<Term>, AllocError> {
    subst.bind(1, 0, &Term::var(0, 0))?;
    subst.bind(0, 0, &Term::var(1, 0))?;
    subst.terms()
}

fn are_exchanged(terms: &[Term]) -> bool {
    match terms {
        [first, second] => first.var_number() == Some(1) && second.var_number() == Some(0),
        _ => false,
    }
}

#[test]
fn bound_terms(rt: HostRuntime) {
    let terms = exchanged(&mut Subst::new(rt.alloc()));
    assert!(rt; terms.is_ok_and(|terms| are_exchanged(&terms)));
}

fn is_bound(matcher: &Option<Subst>, number: u32) -> bool {
    match matcher {
        Some(matcher) => matcher.get(number, 0).is_some(),
        None => false,
    }
}

#[test]
fn matchers(rt: HostRuntime) {
    let (zero, one) = (Term::var(0, 0), Term::var(1, 0));
    let of_term = match_term(rt.alloc(), &zero, &one);
    let of_pair = match_pair(rt.alloc(), &zero, &one, &one, &zero);
    assert!(rt; of_term.is_ok_and(|matcher| is_bound(&matcher, 0)));
    assert!(rt; of_pair.is_ok_and(|matcher| is_bound(&matcher, 1)));
}

#[test]
fn table_numbers(rt: HostRuntime) {
    let mut table = TableBuilder::new(rt.alloc());
    let number = table.number(&Term::var(0, 0));
    assert!(rt; number == Ok(Some(0)));
}

#[test]
fn numbers(rt: HostRuntime) {
    let (zero, one) = (Term::var(0, 0), Term::var(1, 0));
    let none = Pairs::new(rt.alloc());
    let in_order = in_order(rt.alloc(), &zero, &one, &none) == Ok(true);
    let parameters = parameters_in_order(rt.alloc(), &one) == Ok(true);
    assert!(rt; in_order && parameters);
}

fn is_spelled(alloc: Global, text: &[u8]) -> Result<bool, FormFault> {
    Ok(Form::read(alloc, text)?.text(alloc)?.bytes() == text)
}

#[test]
fn forms(rt: HostRuntime) {
    assert!(rt; is_spelled(rt.alloc(), b"if_[then]_") == Ok(true));
}

const SUMS: &[u8] = b"theory T is
  sorts X Y .
  op _+_ : X X -> X .
  op c : -> X .
  op next : Y -> Y .
  derivative next(*:Y) .
endtheory";

// Whether the sorts of these variables exist.
fn have_sorts(theory: &Theory, vars: &[(Text, u32)]) -> bool
    ensures { IsTrue result → HaveSorts theory.now.signature (declared_by vars.now) }
{
    for var in vars {
        if var.1 >= theory.sort_count() {
            return false;
        }
    }
    true
}

// The variables `A` and `B` of sort X, which the theory does not declare.
fn variables(alloc: Global) -> Result<Vec<(Text, u32)>, AllocError> {
    let mut vars = Vec::new(alloc);
    for name in [b"A", b"B"] {
        vars.push((Text::of(alloc, name)?, 0))?;
    }
    Ok(vars)
}

// The tokens as one term, with or without a hole, or as two terms, of which the left has one token.
#[derive(Clone, Copy)]
enum Kind {
    One,
    Holed,
    Pair,
}

fn read(
    alloc: Global,
    theory: &Theory,
    vars: &[(Text, u32)],
    tokens: &Tokens<'_>,
    kind: Kind,
) -> Result<Reading, ParseFault> {
    let count = tokens.count();
    if count == 0 || !have_sorts(theory, vars) {
        return Err(ParseFault::NoParse);
    }
    let left = Span { from: 0, to: 1 };
    let right = Span { from: 1, to: count };
    let all = Span { from: 0, to: count };
    match kind {
        Kind::One => parse_one(alloc, theory, vars, tokens, all, false),
        Kind::Holed => parse_one(alloc, theory, vars, tokens, all, true),
        Kind::Pair => parse_pair(alloc, theory, vars, tokens, left, right),
    }
}

// The terms' texts, one behind the other.
fn printed(alloc: Global, theory: &Theory, terms: &[Term]) -> Result<Vec<u8>, AllocError> {
    let mut out = Vec::new(alloc);
    for term in terms {
        print(alloc, theory, term, &mut out)?;
    }
    Ok(out)
}

fn is_printed(
    alloc: Global,
    theory: &Theory,
    found: &Result<Reading, ParseFault>,
    wanted: &[u8],
) -> Result<bool, AllocError> {
    match found {
        Ok(reading) => Ok(printed(alloc, theory, &reading.terms)?.as_slice() == wanted),
        Err(_) => Ok(false),
    }
}

// What the tokens are to be read as, a text, and what is printed then.
type Row = (Kind, &'static [u8], &'static [u8]);

const ROWS: [Row; 3] = [
    (Kind::One, b"B + (A + B)", b"(V0:X + (V1:X + V0:X))"),
    (Kind::Holed, b"A + *:X", b"(V1:X + V0:X)"),
    (Kind::Pair, b"B A + B", b"V0:X(V1:X + V0:X)"),
];

fn is_read(
    alloc: Global,
    theory: &Theory,
    vars: &[(Text, u32)],
    row: &Row,
) -> Result<bool, LexFault> {
    let (kind, text, wanted) = *row;
    let tokens = Tokens::of(alloc, text)?;
    let found = read(alloc, theory, vars, &tokens, kind);
    Ok(is_printed(alloc, theory, &found, wanted)?)
}

fn are_read(alloc: Global, theory: &Theory) -> Result<bool, AllocError> {
    let vars = variables(alloc)?;
    Ok(
        ROWS.iter()
            .all(|row| is_read(alloc, theory, &vars, row) == Ok(true)),
    )
}

#[test]
fn terms(rt: HostRuntime) {
    let theory = read_theory(rt.alloc(), SUMS);
    assert!(rt; theory.is_ok_and(|theory| are_read(rt.alloc(), &theory) == Ok(true)));
}

#[test]
fn sorts(rt: HostRuntime) {
    let theory = read_theory(rt.alloc(), SUMS);
    assert!(rt; theory.is_ok_and(|theory| unobserved(rt.alloc(), &theory, 1) == Ok(true)));
}

// Whether derivative 0, which has no parameter, has an instance on the term.
fn is_derived(theory: &Theory, term: &Term) -> bool {
    let Some(hole) = theory.hole_sort(0) else {
        return false;
    };
    let Some(sorts) = theory.parameter_sorts(0) else {
        return false;
    };
    if term.sort() != hole || !sorts.is_empty() {
        return false;
    }
    theory.instance(0, &[], term).is_ok()
}

#[test]
fn derivatives(rt: HostRuntime) {
    let theory = read_theory(rt.alloc(), SUMS);
    assert!(rt; theory.is_ok_and(|theory| is_derived(&theory, &Term::var(0, 1))));
}

const SETS: &[u8] = b"theory T is
  sort X .
  op _+_ : X X -> X [assoc comm idem] .
endtheory";

fn sum(alloc: Global, first: Term, second: Term) -> Result<Term, TermFault> {
    Term::app(alloc, 0, 0, vec![in alloc; first, second]?)
}

// Whether the first holds two terms, and the second is its canonical form.
fn holds_two(alloc: Global, theory: &Theory, a: &Term, b: &Term) -> Result<bool, TermFault> {
    let count = content(alloc, theory, 0, a)?.len();
    let are_same = same_content(alloc, theory, 0, a, b)?;
    let form = canonical(alloc, theory, 0, a)?;
    Ok(count == 2 && are_same && form.same(b))
}

// The same for `B + (A + B)` and `A + B`.
fn sums_hold_two(alloc: Global, theory: &Theory) -> Result<bool, TermFault> {
    let two = sum(alloc, Term::var(0, 0), Term::var(1, 0))?;
    let three = sum(alloc, Term::var(1, 0), two.share()?)?;
    holds_two(alloc, theory, &three, &two)
}

#[test]
fn contents(rt: HostRuntime) {
    let theory = read_theory(rt.alloc(), SETS);
    assert!(rt; theory.is_ok_and(|theory| sums_hold_two(rt.alloc(), &theory).is_ok_and(|two| two)));
}

// A variable is itself.
const ITSELF: &[u8] = b"circproof 1
v 0 0
block
goal 0 0
reduce
same
done
end
";

// Whether the bytes are read as a proof, which is written as the same bytes.
fn is_written(alloc: Global, theory: &Theory, bytes: &[u8]) -> bool {
    decoded_bytes_are_the_text();
    let Ok(proof) = decode(alloc, theory, bytes) else {
        return false;
    };
    encode(alloc, &proof).is_ok_and(|text| text.as_slice() == bytes)
}

#[test]
fn proofs(rt: HostRuntime) {
    let theory = read_theory(rt.alloc(), SETS);
    assert!(rt; theory.is_ok_and(|theory| is_written(rt.alloc(), &theory, ITSELF)));
}

// Whether the term becomes `B` where `A` is assumed to be `B`, by three of ten replacements.
fn becomes_b(alloc: Global, theory: &Theory, term: &Term) -> bool {
    let assumption = Pair {
        left: Term::var(0, 0),
        right: Term::var(1, 0),
    };
    let mut budget = 10;
    match normalise(alloc, theory, &[], &[assumption], term, &mut budget) {
        Ok(normal) => normal.term.var_number() == Some(1) && budget == 7,
        Err(_) => false,
    }
}

fn sum_becomes_b(alloc: Global, theory: &Theory) -> Result<bool, TermFault> {
    let two = sum(alloc, Term::var(0, 0), Term::var(1, 0))?;
    let three = sum(alloc, Term::var(1, 0), two)?;
    Ok(becomes_b(alloc, theory, &three))
}

#[test]
fn normal_forms(rt: HostRuntime) {
    let theory = read_theory(rt.alloc(), SETS);
    assert!(rt; theory.is_ok_and(|theory| sum_becomes_b(rt.alloc(), &theory).is_ok_and(|b| b)));
}

// Whether a link from a variable to itself, by its content, is followed alone and in a list.
fn is_followed(alloc: Global, theory: &Theory, gamma: &Gamma) -> bool {
    if theory.sort_count() == 0 {
        return false;
    }
    let table = [Term::var(0, 0)];
    let links = [Link::Content {
        op: 0,
        path: Path::new(alloc),
        term: 0,
    }];
    let one = follow(alloc, theory, &table, gamma, &[], &[], &links[0], &table[0]);
    let all = follow_all(alloc, theory, &table, gamma, &[], &[], &links, &table[0]);
    matches!(one, Ok(Some(_))) && matches!(all, Ok(Some(_)))
}

// Whether a variable is the same as itself, by no link.
fn is_justified(alloc: Global, theory: &Theory, gamma: &Gamma) -> bool {
    if theory.sort_count() == 0 {
        return false;
    }
    let goal = Goal {
        conds: Pairs::new(alloc),
        left: Term::var(0, 0),
        right: Term::var(0, 0),
    };
    let chain = Chain {
        left: Vec::new(alloc),
        right: Vec::new(alloc),
    };
    let why = Why::Same { chain };
    follow_why(alloc, theory, &[], gamma, &[], &goal, &why) == Ok(true)
}

fn are_replayed(alloc: Global, theory: &Theory) -> bool {
    let gamma = Gamma::empty(alloc);
    is_followed(alloc, theory, &gamma) && is_justified(alloc, theory, &gamma)
}

#[test]
fn replays(rt: HostRuntime) {
    let theory = read_theory(rt.alloc(), SETS);
    assert!(rt; theory.is_ok_and(|theory| are_replayed(rt.alloc(), &theory)));
}

// Whether nothing is left where nothing was to be shown, and no certificate is missed where none is
// due.
fn is_nothing_left(alloc: Global, theory: &Theory) -> bool {
    let gamma = Gamma::empty(alloc);
    let mut state = State {
        hyps: Vec::new(alloc),
        goals: VecDeque::new(alloc),
    };
    let done = apply(alloc, theory, &[], &gamma, &mut state, &Step::Done);
    let admitted = admit(alloc, theory, &[], &gamma, &[]);
    done == Ok(true) && admitted == Ok(Admission::Yes)
}

#[test]
fn steps(rt: HostRuntime) {
    let theory = read_theory(rt.alloc(), SETS);
    assert!(rt; theory.is_ok_and(|theory| is_nothing_left(rt.alloc(), &theory)));
}

const FILE: &[u8] = b"theory NOT is sort Bit . ops 0 1 : -> Bit . endtheory";

const PROOF: &[u8] = b"circproof 1\na 0\nblock\ngoal 0 0\nreduce\nsame\ndone\nend\n";

// Whether the proof is accepted, and its block derived something or nothing.
fn is_accepted(alloc: Global, theory: &Theory, proof: &Proof) -> bool
    requires { ProofFor theory.now (plain_proof proof.now) }
{
    match check(alloc, theory, proof) {
        Ok(Verdict::Accepted) => {
            derived(alloc, theory, proof).is_ok_and(|blocks| blocks.len() == 1)
        }
        _ => false,
    }
}

// Whether the proof is read whole, and accepted.
fn is_decoded(alloc: Global, theory: &Theory) -> bool {
    match decode(alloc, theory, PROOF) {
        Ok(proof) => is_accepted(alloc, theory, &proof),
        Err(_) => false,
    }
}

#[test]
fn whole_proofs(rt: HostRuntime) {
    let theory = read_theory(rt.alloc(), FILE);
    assert!(rt; theory.is_ok_and(|theory| is_decoded(rt.alloc(), &theory)));
}

// The text of a theory, printed whole.
fn shown(alloc: Global, theory: &Theory) -> Result<Vec<u8>, AllocError> {
    let mut out = Vec::new(alloc);
    theory_text(alloc, theory, &mut out)?;
    Ok(out)
}

// Whether the library's text LANG is read as this theory.
fn is_lang(alloc: Global, made: &Theory) -> Result<bool, AllocError> {
    let Some(Ok(read)) = lookup(b"LANG").map(|text| read_theory(alloc, text)) else {
        return Ok(false);
    };
    Ok(shown(alloc, &read)?.as_slice() == shown(alloc, made)?.as_slice())
}

#[test]
fn the_theory_of_expressions(rt: HostRuntime) {
    let made = lang_theory(rt.alloc());
    assert!(rt; made.is_ok_and(|made| is_lang(rt.alloc(), &made) == Ok(true)));
}

fn words(alloc: Global) -> Result<Vec<String>, AllocError> {
    let mut words = Vec::new(alloc);
    for text in ["circ", "check", "t", "p"] {
        words.push(String::from_str(alloc, text)?)?;
    }
    Ok(words)
}

// Runs the program over these files, and answers the number of its answer.
fn written(alloc: Global, shelf: &mut SureShelf, out: &mut SureSink) -> Result<u8, AllocError> {
    shelf.add("t", FILE)?;
    shelf.add("p", PROOF)?;
    Ok(circ_in_memory(alloc, &words(alloc)?, shelf, out).number())
}

#[test]
fn runs(rt: HostRuntime) {
    let mut out = SureSink::new(rt.alloc(), 4);
    let number = written(
        rt.alloc(),
        &mut SureShelf::new(rt.alloc(), 65_536),
        &mut out,
    );
    assert!(rt; number == Ok(0) && out.bytes() == b"accepted\ngoal: 0 = 0\n".as_slice());
}
