//! The texts, one constant each. Each line ends with a line feed, the last one too.

/// The text of BITS.
pub const BITS: &[u8] = b"theory BITS is
  sorts Bit Stream .
  ops 0 1 : -> Bit .
  op _+_ : Bit Bit -> Bit [prec 33] .
  cases Bit by 0 1 .
  op hd : Stream -> Bit .
  op tl : Stream -> Stream .
  derivative hd(*:Stream) .
  derivative tl(*:Stream) .
  ops zeros ones : -> Stream .
  op odd : Stream -> Stream .
  op zip : Stream Stream -> Stream .
  op _+_ : Stream Stream -> Stream [prec 33] .
  var X : Bit .
  vars S T : Stream .
  eq 0 + X = X .
  eq X + 0 = X .
  eq 1 + 1 = 0 .
  eq hd(zeros) = 0 .
  eq tl(zeros) = zeros .
  eq hd(ones) = 1 .
  eq tl(ones) = ones .
  eq hd(odd(S)) = hd(S) .
  eq tl(odd(S)) = odd(tl(tl(S))) .
  eq hd(zip(S, T)) = hd(S) .
  eq tl(zip(S, T)) = zip(T, tl(S)) .
  eq hd(S + T) = hd(S) + hd(T) .
  eq tl(S + T) = tl(S) + tl(T) .
endtheory
";

/// The text of STREAM.
pub const STREAM: &[u8] = b"theory STREAM is
  sorts Elt Stream .
  op hd : Stream -> Elt .
  op tl : Stream -> Stream .
  derivative hd(*:Stream) .
  derivative tl(*:Stream) .
  op cons : Elt Stream -> Stream .
  op repeat : Elt -> Stream .
  ops odd even : Stream -> Stream .
  op zip : Stream Stream -> Stream .
  var E : Elt .
  vars S T : Stream .
  eq hd(cons(E, S)) = E .
  eq tl(cons(E, S)) = S .
  eq hd(repeat(E)) = E .
  eq tl(repeat(E)) = repeat(E) .
  eq hd(odd(S)) = hd(S) .
  eq tl(odd(S)) = odd(tl(tl(S))) .
  eq even(S) = odd(tl(S)) .
  eq hd(zip(S, T)) = hd(S) .
  eq tl(zip(S, T)) = zip(T, tl(S)) .
endtheory
";

/// The text of TREE.
pub const TREE: &[u8] = b"theory TREE is
  sorts Elt Tree .
  op root : Tree -> Elt .
  ops lc rc : Tree -> Tree .
  derivative root(*:Tree) .
  derivative lc(*:Tree) .
  derivative rc(*:Tree) .
  op node : Elt Tree Tree -> Tree .
  op mirror : Tree -> Tree .
  op repeat : Elt -> Tree .
  var E : Elt .
  vars T U : Tree .
  eq root(node(E, T, U)) = E .
  eq lc(node(E, T, U)) = T .
  eq rc(node(E, T, U)) = U .
  eq root(mirror(T)) = root(T) .
  eq lc(mirror(T)) = mirror(rc(T)) .
  eq rc(mirror(T)) = mirror(lc(T)) .
  eq root(repeat(E)) = E .
  eq lc(repeat(E)) = repeat(E) .
  eq rc(repeat(E)) = repeat(E) .
endtheory
";

/// The text of LANG.
pub const LANG: &[u8] = b"theory LANG is
  sorts Bit Lang .
  ops 0 1 : -> Bit .
  cases Bit by 0 1 .
  op _or_ : Bit Bit -> Bit [prec 43] .
  op _and_ : Bit Bit -> Bit [prec 42] .
  op acc : Lang -> Bit .
  ops da db : Lang -> Lang .
  derivative acc(*:Lang) .
  derivative da(*:Lang) .
  derivative db(*:Lang) .
  ops empty eps a b : -> Lang .
  op _* : Lang -> Lang [prec 31] .
  op _;_ : Lang Lang -> Lang [prec 33 right] .
  op _+_ : Lang Lang -> Lang [prec 35 assoc comm idem] .
  op when : Bit Lang -> Lang .
  var X : Bit .
  vars R S : Lang .
  eq 0 or X = X .
  eq 1 or X = 1 .
  eq X or 0 = X .
  eq X or 1 = 1 .
  eq 0 and X = 0 .
  eq 1 and X = X .
  eq X and 0 = 0 .
  eq X and 1 = X .
  eq empty + R = R .
  eq R + empty = R .
  eq empty ; R = empty .
  eq R ; empty = empty .
  eq eps ; R = R .
  eq R ; eps = R .
  eq when(0, R) = empty .
  eq when(1, R) = R .
  eq acc(empty) = 0 .
  eq acc(eps) = 1 .
  eq acc(a) = 0 .
  eq acc(b) = 0 .
  eq acc(R + S) = acc(R) or acc(S) .
  eq acc(R ; S) = acc(R) and acc(S) .
  eq acc(R *) = 1 .
  eq acc(when(X, R)) = X and acc(R) .
  eq da(empty) = empty .
  eq da(eps) = empty .
  eq da(a) = eps .
  eq da(b) = empty .
  eq da(R + S) = da(R) + da(S) .
  eq da(R ; S) = (da(R) ; S) + when(acc(R), da(S)) .
  eq da(R *) = da(R) ; (R *) .
  eq da(when(X, R)) = when(X, da(R)) .
  eq db(empty) = empty .
  eq db(eps) = empty .
  eq db(a) = empty .
  eq db(b) = eps .
  eq db(R + S) = db(R) + db(S) .
  eq db(R ; S) = (db(R) ; S) + when(acc(R), db(S)) .
  eq db(R *) = db(R) ; (R *) .
  eq db(when(X, R)) = when(X, db(R)) .
endtheory
";

/// The text of PROC.
pub const PROC: &[u8] = b"theory PROC is
  sorts Bit Act Proc .
  ops 0 1 : -> Bit .
  cases Bit by 0 1 .
  op _or_ : Bit Bit -> Bit [prec 43] .
  op _and_ : Bit Bit -> Bit [prec 42] .
  op same : Act Act -> Bit .
  op can : Proc Act -> Bit .
  op after : Proc Act -> Proc .
  derivative can(*:Proc, A:Act) .
  derivative after(*:Proc, A:Act) .
  ops stop always : -> Proc .
  op once : Act -> Proc .
  op _meet_ : Proc Proc -> Proc .
  op _join_ : Proc Proc -> Proc .
  var X : Bit .
  vars A B : Act .
  vars P Q : Proc .
  eq 0 or X = X .
  eq 1 or X = 1 .
  eq X or 0 = X .
  eq X or 1 = 1 .
  eq 0 and X = 0 .
  eq 1 and X = X .
  eq X and 0 = 0 .
  eq X and 1 = X .
  eq same(A, A) = 1 .
  eq can(stop, A) = 0 .
  eq after(stop, A) = stop .
  eq can(always, A) = 1 .
  eq after(always, A) = always .
  eq can(once(A), B) = same(A, B) .
  eq after(once(A), B) = stop .
  eq can(P meet Q, A) = can(P, A) and can(Q, A) .
  eq after(P meet Q, A) = after(P, A) meet after(Q, A) .
  eq can(P join Q, A) = can(P, A) or can(Q, A) .
  eq after(P join Q, A) = after(P, A) join after(Q, A) .
endtheory
";
