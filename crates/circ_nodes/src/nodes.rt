//! Terms that are kept by number.
ghost use Rattle.std.specs.Prelude.{◌≡◌, ◌<◌, ◌≤◌, ◌^◌, ◌*◌, ◌↔◌, ℕ, [], length};
ghost use Rattle.std.specs.Prelude.{◌++◌, ◌∷◌, take, slice_set, None};
ghost use Rattle.std.specs.Prelude.{IsTrue, IfOk, OnOk, OnErr};
ghost use Rattle.std.specs.List.{slice_get, AllByRecursion};
ghost use Rattle.circ_term.specs.Tree.{Tree, Trees, Var, App, args_of, trees_of, at};
ghost use Rattle.circ_term.specs.Tree.{size_of, depth_of, sort_of, is_ground, replaced};
ghost use Rattle.circ_term.specs.Fingerprint.{mixed, fingerprint_of};
ghost use Rattle.circ_term.specs.Limits.{IsWithinLimits};
ghost use Rattle.circ_term.specs.Limits.{argument_limit, node_limit, depth_limit};
ghost use Rattle.circ_term.specs.Growing.{Grows};
ghost use Rattle.circ_nodes.specs.Named.{IsNamed, AreNamed, IsOnce, HasShape, Interns, tree_at};
ghost use Rattle.circ_nodes.specs.Named.{Enters, AddsOnly, IsPart, IsPartOfSome};
ghost use Rattle.circ_nodes.specs.Named.{arguments_of, Points, InternsSome, EntersSome};
ghost use Rattle.circ_nodes.specs.Roots.{HasRoot, Finds, Tells, HasWeight, AreMeasures, Weighs};
ghost use Rattle.circ_nodes.specs.Rows.{plain_root, changed_args, changed_root};

use crate::Numbers;
use crate::rows::{Changed, Rows, Weight, changed_arg};
use circ_hash_chains::HashChains;
use circ_term::{
    Kind, MOST_ARGS, MOST_DEPTH, MOST_NODES, Term, TermFault, head_fingerprint, mixed,
};
use std::alloc::{AllocError, Global};
use std::marker::Model;

// The most terms, so that each has a number that is a `u32`.
const MOST_TERMS: usize = 4_294_967_295;

// The sizes of some terms together, the depth of the deepest, and whether none has a variable.
#[derive(Clone, Copy)]
struct Measures {
    sizes: u64,
    depths: u64,
    are_ground: bool,
}

// What a search for a whole term tells.
#[derive(Clone, Copy)]
enum Lookup {
    // Its number.
    There(u32),
    // That it has no number.
    Absent,
    // Nothing, since another term is much like it.
    Unclear,
}

/// Terms by number. Each is there once, and its arguments are there too. A term is kept in 20 bytes
/// and 4 for each argument, and 12 to 16 by which it is found. A call that would add one more than
/// 4,294,967,295, or would have more than 4,294,967,295 arguments kept, answers want of memory.
#[derive(Drop)]
pub struct Nodes {
    alloc: Global,
    rows: Rows,
    // The fingerprints of the terms, by number.
    chains: HashChains,
}

impl Model for Nodes {
    ghost use Rattle.std.specs.Prelude.{List};
    ghost use Rattle.std.specs.Coded.{coded_list};
    ghost use Rattle.circ_term.specs.Tree.{Tree};
    ghost use Rattle.circ_term.specs.Code.{tree_code};

    ghost Value = { List Tree };

    ghost coded = { coded_list tree_code };

    ghost use Rattle.circ_nodes.specs.Rows.{roots};
    ghost use Rattle.circ_nodes.specs.Roots.{trees_with, AreTerms};

    ghost view = { λ a. trees_with (roots a.rows) };

    ghost invariant = { λ a. AreTerms a.rows a.chains };
}

/// A term taken apart by one node, with the numbers of its arguments.
#[derive(Clone, Copy)]
pub enum Shape<'a> {
    /// A variable, by its number and its sort.
    Variable { number: u32, sort: u32 },
    /// An operator's number, the sort of its result, and the numbers of its arguments.
    Application { op: u32, sort: u32, args: &'a [u32] },
}

impl Nodes {
    /// No terms.
    pub fn new(alloc: Global) -> Nodes
        ensures { result ≡ [] }
    {
        Nodes {
            alloc,
            rows: Rows::new(alloc),
            chains: HashChains::new(alloc),
        }
    }

    /// How many terms there are.
    pub fn len(&self) -> usize
        ensures { result ≡ length self.now }
    {
        self.rows.rows.len()
    }

    /// Does nothing. Its contract is the law that each term has one number, which is a `u32`.
    pub fn known(&self)
        ensures once { IsOnce self.now }
        ensures few { length self.now < 2 ^ 32 }
    {
        let _ = &self.rows;
    }

    /// Does nothing. Its contract is the law that the term of a number is within the limits.
    pub fn known_at(&self, number: u32)
        requires { number < length self.now }
        ensures named { IsNamed self.now number (tree_at self.now number) }
        ensures within { IsWithinLimits (tree_at self.now number) }
    {
        let _ = self.weight(number);
    }

    // What is kept of the term of a number.
    fn weight(&self, number: u32) -> Weight
        requires { number < length self.now }
        ensures { HasWeight result (tree_at self.now number) }
    {
        self.rows.weight(number)
    }

    /// The number of nodes of the term of a number, counted as a tree.
    pub fn size(&self, number: u32) -> u64
        requires { number < length self.now }
        ensures exact { result ≡ size_of (tree_at self.now number) }
        ensures small { result ≤ MOST_NODES }
    {
        self.weight(number).size as u64
    }

    /// The depth of the term of a number: 1 for a variable and for a constant.
    pub fn depth(&self, number: u32) -> u64
        requires { number < length self.now }
        ensures exact { result ≡ depth_of (tree_at self.now number) }
        ensures shallow { result ≤ MOST_DEPTH }
    {
        self.weight(number).depth as u64
    }

    /// Whether the term of a number has no variable.
    pub fn is_ground(&self, number: u32) -> bool
        requires { number < length self.now }
        ensures { result ≡ is_ground (tree_at self.now number) }
    {
        self.weight(number).is_ground
    }

    /// The sort of the term of a number.
    pub fn sort(&self, number: u32) -> u32
        requires { number < length self.now }
        ensures { result ≡ sort_of (tree_at self.now number) }
    {
        match self.shape(number) {
            Shape::Variable { sort, .. } => sort,
            Shape::Application { sort, .. } => sort,
        }
    }

    /// The term of a number, taken apart.
    pub fn shape(&self, number: u32) -> Shape<'_>
        requires { number < length self.now }
        ensures shape { (t : Tree) → IsNamed self.now number t → HasShape self.now result t }
        ensures few { (t : Tree) → IsNamed self.now number t
            → length (args_of t) ≤ MOST_ARGS }
        ensures before { AllByRecursion (λ m. m < number) (arguments_of result) }
    {
        self.rows.shape(number)
    }

    /// The number of an argument of the term of a number.
    pub fn arg(&self, number: u32, place: usize) -> Option<u32>
        requires { number < length self.now }
        ensures { (t : Tree) → IsNamed self.now number t
            → Points self.now (slice_get (args_of t) place) result }
    {
        match self.shape(number) {
            Shape::Variable { .. } => None,
            Shape::Application { args, .. } => {
                if place >= args.len() {
                    return None;
                }
                Some(args[place])
            }
        }
    }

    /// The number of the subterm at a path in the term of a number. Costs a look-up for each step
    /// down.
    pub fn at(&self, number: u32, path: &[u16]) -> Option<u32>
        requires { number < length self.now }
        ensures { (t : Tree) → IsNamed self.now number t → Points self.now (at t path.now) result }
    {
        let mut here = number;
        for place in path {
            let Some(next) = self.arg(here, *place as usize) else {
                return None;
            };
            here = next;
        }
        Some(here)
    }

    /// The first terms alone are kept, as many as that. Costs as much as there are others.
    pub fn cut(&mut self, count: usize)
        ensures { self.new ≡ take count self.old }
    {
        self.rows.truncate(count);
        self.chains.truncate(count);
    }

    /// The number of a variable. After want of memory the terms are as before.
    pub fn variable(&mut self, number: u32, sort: u32) -> Result<u32, AllocError>
        ensures grows { Grows self.old self.new }
        ensures named { IfOk result (λ n. IsNamed self.new n (Var number sort)) }
        ensures enters { OnOk result (Enters self.old self.new (Var number sort)) }
        ensures err { OnErr result (self.new ≡ self.old) }
    {
        self.enter(
            false,
            Shape::Variable { number, sort },
            &Term::var(number, sort),
        )
    }

    /// The number of an operator on the terms of these numbers. Costs as much as there are
    /// arguments. After a fault the terms are as before.
    pub fn app(&mut self, op: u32, sort: u32, args: Numbers) -> Result<u32, TermFault>
        requires few { length args.items ≤ MOST_ARGS }
        requires there { AllByRecursion (λ n. n < length self.old) args.items }
        ensures grows { Grows self.old self.new }
        ensures interns { (ts : Trees) → AreNamed self.old args.items ts
            → Interns self.new result (App op sort ts) }
        ensures enters { (ts : Trees) → AreNamed self.old args.items ts
            → OnOk result (Enters self.old self.new (App op sort ts)) }
        ensures err { OnErr result (self.new ≡ self.old) }
    {
        self.apply(op, sort, args.as_slice())
    }

    // The number of an operator on the terms of these numbers.
    fn apply(&mut self, op: u32, sort: u32, args: &[u32]) -> Result<u32, TermFault>
        requires few { length args.now ≤ MOST_ARGS }
        requires there { AllByRecursion (λ n. n < length self.old) args.now }
        ensures grows { Grows self.old self.new }
        ensures interns { (ts : Trees) → AreNamed self.old args.now ts
            → Interns self.new result (App op sort ts) }
        ensures enters { (ts : Trees) → AreNamed self.old args.now ts
            → OnOk result (Enters self.old self.new (App op sort ts)) }
        ensures err { OnErr result (self.new ≡ self.old) }
    {
        let key = self.fingerprint(op, sort, args);
        if let Some(number) = self.find(Shape::Application { op, sort, args }, key) {
            self.known_at(number);
            return Ok(number);
        }
        self.put_app(op, sort, args, key)
    }

    // The same where the term is new. It has this fingerprint.
    fn put_app(&mut self, op: u32, sort: u32, args: &[u32], key: u32) -> Result<u32, TermFault>
        requires few { length args.now ≤ MOST_ARGS }
        requires there { AllByRecursion (λ n. n < length self.old) args.now }
        requires key { (ts : Trees) → AreNamed self.old args.now ts
            → key ≡ fingerprint_of (App op sort ts) }
        requires fresh { (ts : Trees) → AreNamed self.old args.now ts
            → Finds self.old (App op sort ts) None }
        ensures grows { Grows self.old self.new }
        ensures interns { (ts : Trees) → AreNamed self.old args.now ts
            → Interns self.new result (App op sort ts) }
        ensures enters { (ts : Trees) → AreNamed self.old args.now ts
            → OnOk result (Enters self.old self.new (App op sort ts)) }
        ensures err { OnErr result (self.new ≡ self.old) }
    {
        let root = Shape::Application { op, sort, args };
        match self.weigh(root) {
            Ok(weight) => Ok(self.put(root, key, weight)?),
            Err(fault) => Err(fault),
        }
    }

    // The same. It stands apart, so that who calls it pays nothing for what it drops.
    fn put_copy(&mut self, op: u32, sort: u32, args: Numbers, key: u32) -> Result<u32, TermFault>
        requires few { length args.items ≤ MOST_ARGS }
        requires there { AllByRecursion (λ n. n < length self.old) args.items }
        requires key { (ts : Trees) → AreNamed self.old args.items ts
            → key ≡ fingerprint_of (App op sort ts) }
        requires fresh { (ts : Trees) → AreNamed self.old args.items ts
            → Finds self.old (App op sort ts) None }
        ensures grows { Grows self.old self.new }
        ensures interns { (ts : Trees) → AreNamed self.old args.items ts
            → Interns self.new result (App op sort ts) }
        ensures enters { (ts : Trees) → AreNamed self.old args.items ts
            → OnOk result (Enters self.old self.new (App op sort ts)) }
        ensures err { OnErr result (self.new ≡ self.old) }
    {
        self.put_app(op, sort, args.as_slice(), key)
    }

    /// The number of the term of a number with another argument at a place. None where it has no
    /// argument there. Costs as much as there are arguments, and no memory where the term is there.
    /// After a fault the terms are as before.
    pub fn with_argument(
        &mut self,
        number: u32,
        place: usize,
        new: u32,
    ) -> Result<Option<u32>, TermFault>
        requires number { number < length self.old }
        requires new { new < length self.old }
        ensures grows { Grows self.old self.new }
        ensures interns { InternsSome self.new result
            (replaced (tree_at self.old number) (place ∷ []) (tree_at self.old new)) }
        ensures enters { OnOk result (EntersSome self.old self.new
            (replaced (tree_at self.old number) (place ∷ []) (tree_at self.old new))) }
        ensures err { OnErr result (self.new ≡ self.old) }
    {
        match self.shape(number) {
            Shape::Variable { .. } => Ok(None),
            Shape::Application { op, sort, args } => {
                if place >= args.len() {
                    return Ok(None);
                }
                if args[place] == new {
                    self.known_at(number);
                    return Ok(Some(number));
                }
                let root = Changed {
                    op,
                    sort,
                    args,
                    place,
                    new,
                };
                let key = self.changed_fingerprint(root);
                if let Some(found) = self.find_changed(root, key) {
                    self.known_at(found);
                    return Ok(Some(found));
                }
                let args = with_number(self.alloc, args, place, new)?;
                match self.put_copy(op, sort, args, key) {
                    Ok(made) => Ok(Some(made)),
                    Err(fault) => Err(fault),
                }
            }
        }
    }

    /// The number of a term. A part that is there already is found by its fingerprint and compared
    /// once. Each other node costs a look-up. Nothing but parts of the term is added, also before
    /// want of memory.
    #[cycle(intern)]
    pub fn intern(&mut self, term: &Term) -> Result<u32, AllocError>
        ensures grows { Grows self.old self.new }
        ensures parts { AddsOnly (IsPart term.now) self.old self.new }
        ensures named { IfOk result (λ n. IsNamed self.new n term.now) }
    {
        match self.look_up(term) {
            Lookup::There(number) => Ok(number),
            Lookup::Absent => self.add(true, term),
            Lookup::Unclear => self.add(false, term),
        }
    }

    // The number of a term. A new one goes last, behind its arguments. Where it may be there, each
    // of its nodes is looked up.
    #[cycle(intern)]
    fn add(&mut self, is_new: bool, term: &Term) -> Result<u32, AllocError>
        requires { IsTrue is_new → Finds self.old term.now None }
        ensures grows { Grows self.old self.new }
        ensures parts { AddsOnly (IsPart term.now) self.old self.new }
        ensures named { IfOk result (λ n. IsNamed self.new n term.now) }
    {
        match term.kind() {
            Kind::Variable { number, sort } => {
                self.enter(is_new, Shape::Variable { number, sort }, term)
            }
            Kind::Application { op, sort, args } => {
                let args = self.intern_all(is_new, args)?;
                let args = args.as_slice();
                self.enter(is_new, Shape::Application { op, sort, args }, term)
            }
        }
    }

    // The numbers of the arguments of a term that is new, or may be there.
    #[cycle(intern)]
    fn intern_all(&mut self, is_new: bool, terms: &[Term]) -> Result<Numbers, AllocError>
        ensures grows { Grows self.old self.new }
        ensures parts { AddsOnly (IsPartOfSome terms.now) self.old self.new }
        ensures named { IfOk result (λ ns. AreNamed self.new ns.items (trees_of terms.now)) }
    {
        let mut numbers = Numbers::with_capacity(self.alloc, terms.len())?;
        for term in terms {
            numbers.push(self.intern_part(is_new, term)?)?;
        }
        Ok(numbers)
    }

    // The number of an argument: it is looked for whole where the term above it is new.
    #[cycle(intern)]
    fn intern_part(&mut self, is_new: bool, term: &Term) -> Result<u32, AllocError>
        ensures grows { Grows self.old self.new }
        ensures parts { AddsOnly (IsPart term.now) self.old self.new }
        ensures named { IfOk result (λ n. IsNamed self.new n term.now) }
    {
        if is_new {
            return self.intern(term);
        }
        self.add(false, term)
    }

    // Looks for a whole term among those with its fingerprint. It is compared with one at most: the
    // first whose arguments have the fingerprints of the term's.
    fn look_up(&self, term: &Term) -> Lookup
        ensures { Tells self.now term.now result }
    {
        let mut next = self.chains.newest(term.fingerprint());
        while let Some(number) = next {
            if self.have_keys(self.arguments(number), term.args()) {
                return self.compare(number, term);
            }
            next = self.chains.older(number);
        }
        Lookup::Absent
    }

    fn compare(&self, number: u32, term: &Term) -> Lookup
        requires { number < length self.now }
        ensures { Tells self.now term.now result }
    {
        if self.is_term(number, term) {
            return Lookup::There(number);
        }
        Lookup::Unclear
    }

    // Whether the term of a number is this one.
    #[cycle(is_term)]
    fn is_term(&self, number: u32, term: &Term) -> bool
        requires { number < length self.now }
        ensures { IsTrue result → IsNamed self.now number term.now }
    {
        match (self.shape(number), term.kind()) {
            (
                Shape::Variable {
                    number: id,
                    sort: id_sort,
                },
                Kind::Variable {
                    number: own,
                    sort: own_sort,
                },
            ) => {
                if id != own || id_sort != own_sort {
                    return false;
                }
                true
            }
            (
                Shape::Application { op, sort, args },
                Kind::Application {
                    op: other,
                    sort: other_sort,
                    args: terms,
                },
            ) => {
                if op != other || sort != other_sort {
                    return false;
                }
                self.are_terms(args, terms)
            }
            _ => false,
        }
    }

    // Whether the terms of these numbers are these. All fingerprints are compared before any goes
    // further down.
    #[cycle(is_term)]
    fn are_terms(&self, numbers: &[u32], terms: &[Term]) -> bool
        requires { AllByRecursion (λ n. n < length self.now) numbers.now }
        ensures { IsTrue result → AreNamed self.now numbers.now (trees_of terms.now) }
    {
        if numbers.len() != terms.len() {
            return false;
        }
        if !self.have_keys(numbers, terms) {
            return false;
        }
        if terms.len() == 0 {
            return true;
        }
        let last = terms.len() - 1;
        for i in 0..last {
            if !self.is_term(numbers[i], &terms[i]) {
                return false;
            }
        }
        self.is_term(numbers[last], &terms[last])
    }

    // Whether the terms of these numbers have the fingerprints of these terms.
    fn have_keys(&self, numbers: &[u32], terms: &[Term]) -> bool
        requires { AllByRecursion (λ n. n < length self.now) numbers.now }
        ensures { AreNamed self.now numbers.now (trees_of terms.now) → IsTrue result }
    {
        if numbers.len() != terms.len() {
            return false;
        }
        for i in 0..terms.len() {
            if !self.has_key(numbers[i], &terms[i]) {
                return false;
            }
        }
        true
    }

    // Whether the term of a number has the fingerprint of this one.
    fn has_key(&self, number: u32, term: &Term) -> bool
        requires { number < length self.now }
        ensures { IsTrue result
            ↔ (fingerprint_of (tree_at self.now number) ≡ fingerprint_of term.now) }
    {
        self.key(number) == term.fingerprint()
    }

    // The fingerprint of the term of a number.
    fn key(&self, number: u32) -> u32
        requires { number < length self.now }
        ensures { result ≡ fingerprint_of (tree_at self.now number) }
    {
        self.chains.key(number)
    }

    // The numbers of the arguments of the term of a number.
    fn arguments(&self, number: u32) -> &[u32]
        requires { number < length self.now }
        ensures { (t : Tree) → IsNamed self.now number t
            → AreNamed self.now result.now (trees_of (args_of t)) }
    {
        match self.shape(number) {
            Shape::Variable { .. } => &[],
            Shape::Application { args, .. } => args,
        }
    }

    // The fingerprint of an operator on the terms of these numbers.
    fn fingerprint(&self, op: u32, sort: u32, numbers: &[u32]) -> u32
        requires { AllByRecursion (λ n. n < length self.now) numbers.now }
        ensures { (ts : Trees) → AreNamed self.now numbers.now ts
            → result ≡ fingerprint_of (App op sort ts) }
    {
        let mut all = head_fingerprint(op, sort);
        for number in numbers {
            all = mixed(all, self.key(*number));
        }
        all
    }

    // The fingerprint of the term with this root.
    fn changed_fingerprint(&self, root: Changed<'_>) -> u32
        requires { AllByRecursion (λ n. n < length self.now) (changed_args root) }
        ensures { (t : Tree) → HasRoot self.now (changed_root root.entry) t
            → result ≡ fingerprint_of t }
    {
        let mut all = head_fingerprint(root.op, root.sort);
        for i in 0..root.args.len() {
            all = mixed(all, self.key(changed_arg(root, i)));
        }
        all
    }

    // The number of the term with this root. It goes last where it is new, which may be known.
    fn enter(&mut self, is_new: bool, root: Shape<'_>, term: &Term) -> Result<u32, AllocError>
        requires root { HasRoot self.old (plain_root root) term.now }
        requires fresh { IsTrue is_new → Finds self.old term.now None }
        ensures grows { Grows self.old self.new }
        ensures named { IfOk result (λ n. IsNamed self.new n term.now) }
        ensures enters { OnOk result (Enters self.old self.new term.now) }
        ensures err { OnErr result (self.new ≡ self.old) }
    {
        if is_new {
            return self.put_term(root, term);
        }
        match self.find(root, term.fingerprint()) {
            Some(number) => Ok(number),
            None => self.put_term(root, term),
        }
    }

    // The new term with this root goes last, where there is room.
    fn put_term(&mut self, root: Shape<'_>, term: &Term) -> Result<u32, AllocError>
        requires root { HasRoot self.old (plain_root root) term.now }
        requires fresh { Finds self.old term.now None }
        ensures grows { Grows self.old self.new }
        ensures named { IfOk result (λ n. IsNamed self.new n term.now) }
        ensures enters { OnOk result (Enters self.old self.new term.now) }
        ensures err { OnErr result (self.new ≡ self.old) }
    {
        self.put(root, term.fingerprint(), weight_of(term))
    }

    // The number of the term with this root, which has this fingerprint.
    fn find(&self, root: Shape<'_>, key: u32) -> Option<u32>
        requires { (t : Tree) → HasRoot self.now (plain_root root) t → key ≡ fingerprint_of t }
        ensures { (t : Tree) → HasRoot self.now (plain_root root.entry) t
            → Finds self.now t result }
    {
        let mut next = self.chains.newest(key);
        while let Some(number) = next {
            if self.rows.is_at(number, root) {
                return Some(number);
            }
            next = self.chains.older(number);
        }
        None
    }

    // The number of the term with this root, which has this fingerprint. None has the last term as
    // an argument.
    fn find_changed(&self, root: Changed<'_>, key: u32) -> Option<u32>
        requires place { root.place < length root.args.now }
        requires key { (t : Tree) → HasRoot self.now (changed_root root) t
            → key ≡ fingerprint_of t }
        ensures { (t : Tree) → HasRoot self.now (changed_root root.entry) t
            → Finds self.now t result }
    {
        let after = root.new as usize + 1;
        if after >= self.rows.rows.len() {
            return None;
        }
        let mut next = self.chains.newest(key);
        while let Some(found) = next {
            if self.rows.is_changed(found, root) {
                return Some(found);
            }
            next = self.chains.older(found);
        }
        None
    }

    // What is to be kept of the term with this root, where it is within the limits.
    fn weigh(&self, root: Shape<'_>) -> Result<Weight, TermFault>
        requires { (t : Tree) × HasRoot self.now (plain_root root) t }
        ensures { (t : Tree) → HasRoot self.now (plain_root root.entry) t → Weighs result t }
    {
        match root {
            Shape::Variable { .. } => Ok(VARIABLE),
            Shape::Application { args, .. } => weight_above(self.measure(args)),
        }
    }

    // The sizes and the depths of the terms of these numbers.
    fn measure(&self, numbers: &[u32]) -> Measures
        requires few { length numbers.now ≤ argument_limit }
        requires there { AllByRecursion (λ n. n < length self.now) numbers.now }
        ensures measures { (ts : Trees) → AreNamed self.now numbers.now ts → AreMeasures result ts }
        ensures few { result.sizes ≤ argument_limit * node_limit }
        ensures shallow { result.depths ≤ depth_limit }
    {
        let mut sizes: u64 = 0;
        let mut depths: u64 = 0;
        let mut are_ground = true;
        for number in numbers {
            let weight = self.weight(*number);
            sizes += weight.size as u64;
            depths = depths.max(weight.depth as u64);
            are_ground &= weight.is_ground;
        }
        Measures {
            sizes,
            depths,
            are_ground,
        }
    }

    // The new term goes last, where there is room. It has this fingerprint.
    fn put(&mut self, root: Shape<'_>, key: u32, weight: Weight) -> Result<u32, AllocError>
        requires root { (t : Tree) × HasRoot self.old (plain_root root) t }
        requires key { (t : Tree) → HasRoot self.old (plain_root root) t → key ≡ fingerprint_of t }
        requires fresh { (t : Tree) → HasRoot self.old (plain_root root) t
            → Finds self.old t None }
        requires weight { (t : Tree) → HasRoot self.old (plain_root root) t → HasWeight weight t }
        ensures grows { Grows self.old self.new }
        ensures named { (t : Tree) → HasRoot self.old (plain_root root.entry) t
            → IfOk result (λ n. IsNamed self.new n t) }
        ensures put { (t : Tree) → HasRoot self.old (plain_root root.entry) t
            → OnOk result (self.new ≡ self.old ++ t ∷ []) }
        ensures err { OnErr result (self.new ≡ self.old) }
    {
        let number = self.len();
        if number >= MOST_TERMS {
            return Err(AllocError);
        }
        self.chains.push(key)?;
        if let Err(fault) = self.rows.push(root, weight) {
            self.chains.truncate(number);
            return Err(fault);
        }
        Ok(number as u32)
    }
}

// The numbers with another one at a place.
fn with_number(
    alloc: Global,
    numbers: &[u32],
    place: usize,
    new: u32,
) -> Result<Numbers, AllocError>
    requires { place < length numbers.now }
    ensures { IfOk result (λ v. v.items ≡ slice_set numbers.now place new) }
{
    let mut copy = Numbers::from_slice(alloc, numbers)?;
    copy.as_mut_slice()[place] = new;
    Ok(copy)
}

// What is kept of a variable.
const VARIABLE: Weight = Weight {
    size: 1,
    depth: 1,
    is_ground: false,
};

// What is to be kept of a term.
fn weight_of(term: &Term) -> Weight
    ensures { HasWeight result term.now }
{
    term.known();
    Weight {
        size: term.size() as u32,
        depth: term.depth() as u16,
        is_ground: term.is_ground(),
    }
}

// What is to be kept of an operator on terms, where it is within the limits.
fn weight_above(args: Measures) -> Result<Weight, TermFault>
    requires few { args.sizes ≤ argument_limit * node_limit }
    requires shallow { args.depths ≤ depth_limit }
    ensures { (op sort : ℕ) (ts : Trees) → AreMeasures args ts → Weighs result (App op sort ts) }
{
    let nodes = args.sizes + 1;
    let depth = args.depths + 1;
    if nodes > MOST_NODES {
        return Err(TermFault::TooBig { nodes });
    }
    if depth > MOST_DEPTH {
        return Err(TermFault::TooDeep { depth });
    }
    Ok(Weight {
        size: nodes as u32,
        depth: depth as u16,
        is_ground: args.are_ground,
    })
}
