//! The texts of a chain.
ghost use Rattle.std.specs.Prelude.{◌≡◌, ◌≤◌, ◌+◌, ◌++◌, IfOk, OnOk};
ghost use Rattle.circ_generate.specs.Chain.{each_below, next_in, op_text, eqs_text};
ghost use Rattle.circ_generate.specs.Chain.{chain_theory, goal_text, chain_script};

use circ_status::{push_counted, push_numbered};
use std::alloc::{AllocError, Global};

/// The theory of a chain of the streams from 0 to n.
pub(crate) fn chain_theory(alloc: Global, n: u64) -> Result<Vec<u8>, AllocError>
    requires { n ≤ 65535 }
    ensures { IfOk result (λ v. v.items ≡ chain_theory n) }
{
    let mut out = Vec::from_slice(alloc, b"theory CHAIN is\n  inc BITS .\n")?;
    push_ops(&mut out, n + 1)?;
    push_all_eqs(&mut out, n, n + 1)?;
    out.extend_from_slice(b"endtheory\n")?;
    Ok(out)
}

fn push_ops(out: &mut Vec<u8>, n: u64) -> Result<(), AllocError>
    ensures { OnOk result (out.new.items ≡ out.old.items ++ each_below op_text n) }
{
    for i in 0..n {
        push_op(out, i)?;
    }
    Ok(())
}

#[tactic(auto, using(crate::proofs::Rules::joins))]
fn push_op(out: &mut Vec<u8>, i: u64) -> Result<(), AllocError>
    ensures { OnOk result (out.new.items ≡ out.old.items ++ op_text i) }
{
    push_counted(out, b"  op c", i, b" : -> Stream .\n")
}

fn push_all_eqs(out: &mut Vec<u8>, last: u64, n: u64) -> Result<(), AllocError>
    requires { n ≤ 65536 }
    ensures { OnOk result (out.new.items ≡ out.old.items ++ each_below (eqs_text last) n) }
{
    for i in 0..n {
        push_eqs(out, last, i)?;
    }
    Ok(())
}

#[tactic(auto, using(crate::proofs::Rules::joins))]
fn push_eqs(out: &mut Vec<u8>, last: u64, i: u64) -> Result<(), AllocError>
    requires { i ≤ 65535 }
    ensures { OnOk result (out.new.items ≡ out.old.items ++ eqs_text last i) }
{
    push_numbered(out, b"  eq hd(c", i)?;
    push_counted(out, b") = 0 .\n  eq tl(c", i, b") = ")?;
    push_counted(out, b"c", next_in(last, i), b" .\n")
}

fn next_in(last: u64, i: u64) -> u64
    requires { i ≤ 65535 }
    ensures { result ≡ next_in last i }
{
    if i == last { 0 } else { i + 1 }
}

/// The script of the chain's goals.
pub(crate) fn chain_script(alloc: Global, n: u64) -> Result<Vec<u8>, AllocError>
    requires { n ≤ 65535 }
    ensures { IfOk result (λ v. v.items ≡ chain_script n) }
{
    let mut out = Vec::new(alloc);
    push_goals(&mut out, n)?;
    out.extend_from_slice(b"coinduction .\n")?;
    Ok(out)
}

fn push_goals(out: &mut Vec<u8>, n: u64) -> Result<(), AllocError>
    requires { n ≤ 65535 }
    ensures { OnOk result (out.new.items ≡ out.old.items ++ each_below goal_text n) }
{
    for i in 0..n {
        push_goal(out, i)?;
    }
    Ok(())
}

#[tactic(auto, using(crate::proofs::Rules::joins))]
fn push_goal(out: &mut Vec<u8>, i: u64) -> Result<(), AllocError>
    requires { i ≤ 65535 }
    ensures { OnOk result (out.new.items ≡ out.old.items ++ goal_text i) }
{
    push_counted(out, b"add goal c", i, b" = ")?;
    push_counted(out, b"c", i + 1, b" .\n")
}
