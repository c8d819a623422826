//! A term: a variable, or an operator on terms, whose nodes are shared.
ghost use Rattle.std.specs.Prelude.{◌≡◌, ◌≤◌, ◌<◌, ◌↔◌, ◌++◌, ◌∷◌, [], IsTrue, length, slice_set};
ghost use Rattle.std.specs.Prelude.{IfOk, OnOk, OnErr, Some};
ghost use Rattle.std.specs.List.{slice_get};
ghost use Rattle.std.specs.Option.{option_copied};
ghost use Rattle.circ_term.specs.Tree.{Var, App, trees_of, args_of, at, replaced};
ghost use Rattle.circ_term.specs.Tree.{size_of, depth_of, sort_of, is_ground};
ghost use Rattle.circ_term.specs.Tree.{variable_number, operator_number};
ghost use Rattle.circ_term.specs.Fingerprint.{spread, mixed, fingerprint_of};
ghost use Rattle.circ_term.specs.Kind.{tree_of_kind};
ghost use Rattle.circ_term.specs.Order.{tree_cmp, trees_cmp};
ghost use Rattle.circ_term.specs.Limits.{Builds, BuildsSome, IsWithinLimits};

use crate::fault::TermFault;
use crate::{MOST_ARGS, MOST_DEPTH, MOST_NODES};
use std::alloc::{AllocError, Global};
use std::cmp::Ordering;
use std::marker::Model;
use std::rc::Rc;

// What fingerprints begin with.
const VARIABLE: u32 = 1;

const APPLICATION: u32 = 2;

/// A variable, or an operator on terms. Two variables are the same where number and sort are equal.
#[cycle(term)]
#[derive(Drop)]
pub struct Term {
    shape: Shape,
}

#[cycle(term)]
#[derive(Drop)]
enum Shape {
    Variable { number: u32, sort: u32 },
    Application(Rc<Node>),
}

// An application, with its size, its depth, whether it has no variable and its fingerprint, so that
// nothing is counted twice.
#[cycle(term)]
#[derive(Drop)]
struct Node {
    op: u32,
    sort: u32,
    size: u64,
    depth: u64,
    is_ground: bool,
    fingerprint: u32,
    args: Vec<Term>,
}

impl Model for Term {
    ghost use Rattle.circ_term.specs.Tree.{Tree, depth_of};
    ghost use Rattle.circ_term.specs.Code.{tree_code};

    ghost Value = { Tree };

    ghost coded = { tree_code };

    ghost use Rattle.circ_term.specs.Nodes.{tree_of, HasKept};

    ghost view = { λ a. tree_of a.shape };

    ghost invariant = { λ a. HasKept a.shape };

    ghost size = { depth_of };

    ghost use Rattle.circ_term.specs.Falls.{deep_le-depth};

    ghost size_decreases = { λ a h. deep_le-depth a.shape };
}

/// A term taken apart by one node.
#[derive(Clone, Copy)]
pub enum Kind<'a> {
    /// A variable, by its number and its sort.
    Variable {
        number: u32,
        sort: u32,
    },
    /// An operator's number, the sort of its result, and its arguments.
    Application {
        op: u32,
        sort: u32,
        args: &'a [Term],
    },
}

impl Term {
    /// The variable of this number and sort.
    pub fn var(id: u32, sort: u32) -> Term
        ensures { result ≡ Var id sort }
    {
        Term {
            shape: Shape::Variable { number: id, sort },
        }
    }

    /// The operator on these arguments, which are given up on a refusal. Costs as much as there are
    /// arguments.
    pub fn app(alloc: Global, op: u32, sort: u32, args: Vec<Term>) -> Result<Term, TermFault>
        requires { length args.items ≤ MOST_ARGS }
        ensures { Builds result (App op sort (trees_of args.items)) }
    {
        let mut size: u64 = 1;
        let mut depth: u64 = 0;
        let mut is_ground = true;
        let mut fingerprint = head_fingerprint(op, sort);
        for arg in &args {
            size += arg.size();
            depth = depth.max(arg.depth());
            is_ground &= arg.is_ground();
            fingerprint = mixed(fingerprint, arg.fingerprint());
        }
        let depth = depth + 1;
        if size > MOST_NODES {
            return Err(TermFault::TooBig { nodes: size });
        }
        if depth > MOST_DEPTH {
            return Err(TermFault::TooDeep { depth });
        }
        let node = Node {
            op,
            sort,
            size,
            depth,
            is_ground,
            fingerprint,
            args,
        };
        let node = Rc::new(alloc, node).map_err(AllocError::from)?;
        Ok(Term {
            shape: Shape::Application(node),
        })
    }

    /// The root of the term, to be matched on.
    #[tactic(auto, using(crate::proofs::Within::rows))]
    pub fn kind(&self) -> Kind<'_>
        ensures value { tree_of_kind result ≡ self.now }
        ensures few { length (args_of self.now) ≤ MOST_ARGS }
    {
        match &self.shape {
            Shape::Variable { number, sort } => Kind::Variable {
                number: *number,
                sort: *sort,
            },
            Shape::Application(node) => Kind::Application {
                op: node.op,
                sort: node.sort,
                args: node.args.as_slice(),
            },
        }
    }

    /// Does nothing. Its contract is the law that each term is within the limits.
    pub fn known(&self)
        ensures { IsWithinLimits self.now }
    {
        let _ = &self.shape;
    }

    /// The sort of a variable, or of an operator's result.
    pub fn sort(&self) -> u32
        ensures { result ≡ sort_of self.now }
    {
        match &self.shape {
            Shape::Variable { sort, .. } => *sort,
            Shape::Application(node) => node.sort,
        }
    }

    /// The number of nodes, counted as a tree.
    pub fn size(&self) -> u64
        ensures exact { result ≡ size_of self.now }
        ensures small { result ≤ MOST_NODES }
    {
        match &self.shape {
            Shape::Variable { .. } => 1,
            Shape::Application(node) => node.size,
        }
    }

    /// The depth: 1 for a variable and for a constant.
    pub fn depth(&self) -> u64
        ensures exact { result ≡ depth_of self.now }
        ensures shallow { result ≤ MOST_DEPTH }
    {
        match &self.shape {
            Shape::Variable { .. } => 1,
            Shape::Application(node) => node.depth,
        }
    }

    /// Whether the term has no variable.
    pub fn is_ground(&self) -> bool
        ensures { result ≡ is_ground self.now }
    {
        match &self.shape {
            Shape::Variable { .. } => false,
            Shape::Application(node) => node.is_ground,
        }
    }

    /// A number by which most different terms differ at once: equal terms have equal ones.
    pub fn fingerprint(&self) -> u32
        ensures { result ≡ fingerprint_of self.now }
    {
        match &self.shape {
            Shape::Variable { number, sort } => first_mixed(VARIABLE, *number, *sort),
            Shape::Application(node) => node.fingerprint,
        }
    }

    /// A variable's number.
    pub fn var_number(&self) -> Option<u32>
        ensures { result ≡ variable_number self.now }
    {
        match &self.shape {
            Shape::Variable { number, .. } => Some(*number),
            Shape::Application(_) => None,
        }
    }

    /// An application's operator.
    pub fn op_number(&self) -> Option<u32>
        ensures { result ≡ operator_number self.now }
    {
        match &self.shape {
            Shape::Variable { .. } => None,
            Shape::Application(node) => Some(node.op),
        }
    }

    /// The arguments. A variable has none.
    #[tactic(auto, using(crate::proofs::Within::rows))]
    pub fn args(&self) -> &[Term]
        ensures value { result.now ≡ args_of self.now }
        ensures few { length result.now ≤ MOST_ARGS }
    {
        match &self.shape {
            Shape::Variable { .. } => &[],
            Shape::Application(node) => node.args.as_slice(),
        }
    }

    /// The argument at a place, from 0.
    pub fn arg(&self, place: usize) -> Option<&Term>
        ensures { option_copied result ≡ slice_get (args_of self.now) place }
    {
        self.args().get(place)
    }

    /// The same term once more. Its nodes are shared, and none is copied.
    pub fn share(&self) -> Result<Term, AllocError>
        ensures same { IfOk result (λ t. t ≡ self.now) }
        ensures within { IsWithinLimits self.now }
    {
        match &self.shape {
            Shape::Variable { number, sort } => Ok(Term::var(*number, *sort)),
            Shape::Application(node) => Ok(Term {
                shape: Shape::Application(node.clone()?),
            }),
        }
    }

    /// Puts the same term once more at the end of a list, which is as before where memory runs out.
    pub fn share_to(&self, list: &mut Vec<Term>) -> Result<(), AllocError>
        ensures put { OnOk result (list.new.items ≡ list.old.items ++ self.now ∷ []) }
        ensures err { OnErr result (list.new.items ≡ list.old.items) }
    {
        list.push(self.share()?)?;
        Ok(())
    }

    /// The subterm at a path.
    #[tactic(auto, using(crate::proofs::Within::rows))]
    pub fn at(&self, path: &[u16]) -> Option<&Term>
        ensures { option_copied result ≡ at self.now path.now }
    {
        let mut here = self;
        for place in path {
            match here.arg(*place as usize) {
                Some(arg) => here = arg,
                None => return None,
            }
        }
        Some(here)
    }

    /// Whether both are the same tree.
    #[tactic(auto, using(crate::proofs::Within::rows))]
    #[cycle(same)]
    pub fn same(&self, other: &Term) -> bool
        ensures { IsTrue result ↔ (self.now ≡ other.now) }
    {
        if self.fingerprint() != other.fingerprint() {
            return false;
        }
        match (self.kind(), other.kind()) {
            (
                Kind::Variable { number, sort },
                Kind::Variable {
                    number: other_number,
                    sort: other_sort,
                },
            ) => number == other_number && sort == other_sort,
            (
                Kind::Application { op, sort, args },
                Kind::Application {
                    op: other_op,
                    sort: other_sort,
                    args: other_args,
                },
            ) => {
                if op != other_op || sort != other_sort {
                    return false;
                }
                same_all(args, other_args)
            }
            _ => false,
        }
    }

    /// How the term stands to another: variables come before applications, variables go by number,
    /// then by sort, and applications by operator, then by arguments from the left, a shorter list
    /// first, then by sort.
    #[cycle(cmp)]
    pub fn cmp(&self, other: &Term) -> Ordering
        ensures { result ≡ tree_cmp self.now other.now }
    {
        match (self.kind(), other.kind()) {
            (
                Kind::Variable { number, sort },
                Kind::Variable {
                    number: other_number,
                    sort: other_sort,
                },
            ) => number.cmp(&other_number).then(sort.cmp(&other_sort)),
            (Kind::Variable { .. }, Kind::Application { .. }) => Ordering::Less,
            (Kind::Application { .. }, Kind::Variable { .. }) => Ordering::Greater,
            (
                Kind::Application { op, sort, args },
                Kind::Application {
                    op: other_op,
                    sort: other_sort,
                    args: other_args,
                },
            ) => match op.cmp(&other_op) {
                Ordering::Equal => cmp_all(args, other_args).then(sort.cmp(&other_sort)),
                apart => apart,
            },
        }
    }

    /// The term with `new` at the path in place of the subterm there. The term itself stays as it
    /// is. Only the nodes on the path are made anew.
    #[tactic(auto, using(crate::proofs::Within::rows))]
    pub fn replace(
        &self,
        alloc: Global,
        path: &[u16],
        new: &Term,
    ) -> Result<Option<Term>, TermFault>
        ensures { BuildsSome result (replaced self.now path.now new.now) }
    {
        let Some((place, rest)) = path.split_first() else {
            return Ok(Some(new.share()?));
        };
        let place = *place as usize;
        let Shape::Application(node) = &self.shape else {
            return Ok(None);
        };
        let Some(arg) = self.arg(place) else {
            return Ok(None);
        };
        match arg.replace(alloc, rest, new) {
            Err(fault) => Err(fault),
            Ok(None) => Ok(None),
            Ok(Some(arg)) => rebuilt(alloc, node.op, node.sort, self.args(), place, arg),
        }
    }
}

/// One more number goes into a fingerprint: how that of an application is made of its operator, its
/// sort and the fingerprints of its arguments.
pub fn mixed(fingerprint: u32, next: u32) -> u32
    ensures { result ≡ mixed fingerprint next }
{
    let sum = fingerprint as u64 * 2_654_435_761 + next as u64 + 1;
    spread((sum % 4_294_967_296) as u32)
}

// The upper bits of a number go into the lower ones too.
fn spread(number: u32) -> u32
    ensures { result ≡ spread number }
{
    let number = number as u64;
    ((number + number / 32_768) * 2_246_822_519 % 4_294_967_296) as u32
}

/// The fingerprint of an application before those of its arguments, which are [`mixed`] into it in
/// their order.
pub fn head_fingerprint(op: u32, sort: u32) -> u32
    ensures { result ≡ mixed (mixed 2 op) sort }
{
    first_mixed(APPLICATION, op, sort)
}

// The fingerprint of a variable, and of an application before its arguments.
fn first_mixed(kind: u32, first: u32, second: u32) -> u32
    ensures { result ≡ mixed (mixed kind first) second }
{
    mixed(mixed(kind, first), second)
}

// The operator on these arguments, with another one at a place.
fn rebuilt(
    alloc: Global,
    op: u32,
    sort: u32,
    args: &[Term],
    place: usize,
    arg: Term,
) -> Result<Option<Term>, TermFault>
    requires place { place < length args.now }
    requires few { length args.now ≤ MOST_ARGS }
    ensures { BuildsSome result (Some (App op sort (trees_of (slice_set args.now place arg)))) }
{
    let args = with_arg(alloc, args, place, arg)?;
    match Term::app(alloc, op, sort, args) {
        Ok(term) => Ok(Some(term)),
        Err(fault) => Err(fault),
    }
}

fn with_arg(alloc: Global, args: &[Term], place: usize, arg: Term) -> Result<Vec<Term>, AllocError>
    requires { place < length args.now }
    ensures { IfOk result (λ v. v.items ≡ slice_set args.now place arg) }
{
    let mut copy = share_all(alloc, args)?;
    copy[place] = arg;
    Ok(copy)
}

/// The same terms once more. Their nodes are shared, and none is copied.
pub fn share_all(alloc: Global, terms: &[Term]) -> Result<Vec<Term>, AllocError>
    ensures { IfOk result (λ v. v.items ≡ terms.now) }
{
    let mut copy = Vec::with_capacity(alloc, terms.len())?;
    for term in terms {
        term.share_to(&mut copy)?;
    }
    Ok(copy)
}

#[cycle(same)]
fn same_all(a: &[Term], b: &[Term]) -> bool
    ensures { IsTrue result ↔ (a.now ≡ b.now) }
{
    if a.len() != b.len() {
        return false;
    }
    if a.len() == 0 {
        return true;
    }
    let last = a.len() - 1;
    for i in 0..last {
        if !a[i].same(&b[i]) {
            return false;
        }
    }
    // A call that comes last costs no return, so that deep terms are compared in a loop.
    a[last].same(&b[last])
}

/// How a list of terms stands to another: the first place where they differ decides, and a list
/// comes before its continuations.
#[cycle(cmp)]
pub fn cmp_all(a: &[Term], b: &[Term]) -> Ordering
    ensures { result ≡ trees_cmp (trees_of a.now) (trees_of b.now) }
{
    for i in 0..a.len().min(b.len()) {
        match a[i].cmp(&b[i]) {
            Ordering::Equal => {}
            apart => return apart,
        }
    }
    a.len().cmp(&b.len())
}
