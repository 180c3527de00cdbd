ghost use Rattle.std.specs.Prelude.{◌≡◌, ◌∷◌, [], ◌<◌, ◌≤◌, IfOk, None};
ghost use Rattle.affine_index.specs.Form.{size_form, var_form};
ghost use Rattle.affine_index.specs.Sum.{sum_of};
ghost use Rattle.binders.specs.Answers.{IsAnswer};
ghost use Rattle.term_tree.specs.Counts.{node_depth};

use affine_index::Aff;
use binders::{MapRefusal, PutIndex, PutTensor, Shift, VarMap, free_index, free_tensor, map_term};
use owned_values::spent;
use sqlite_items::{Boxed, Items};
use std::alloc::Global;
use std::test::Fail;
use term_tree::{Depths, Term, copy, depth, nodes, same};

/// `gen j < size 0.` a term.
fn generated(alloc: Global, body: Boxed<Term>) -> Result<Boxed<Term>, Fail>
    ensures { IfOk result (λ e. e ≡ Term.Gen (size_form 0) body) }
{
    let count = Aff::size(alloc, 0)?;
    Ok(Boxed::new(alloc, Term::Gen(count, body))?)
}

/// `let t = 1 in` a term.
fn after_one(alloc: Global, body: Boxed<Term>) -> Result<Boxed<Term>, Fail>
    ensures { IfOk result (λ e. e ≡ Term.Let (Term.Lit 1) body) }
{
    let one = Boxed::new(alloc, Term::Lit(1))?;
    Ok(Boxed::new(alloc, Term::Let(one, body))?)
}

/// An element of an input.
fn element(alloc: Global, input: u32, place: Aff) -> Result<Boxed<Term>, Fail>
    ensures { IfOk result (λ e. e ≡ Term.Index (Term.TVar input) place) }
{
    let input = Boxed::new(alloc, Term::TVar(input))?;
    Ok(Boxed::new(alloc, Term::Index(input, place))?)
}

/// `gen j < size 0. let t = 1 in (input 0)[outer i]`, in which i is variable 1 and the input variable 1.
fn example(alloc: Global) -> Result<Boxed<Term>, Fail> {
    let row = element(alloc, 1, Aff::var(alloc, 1)?)?;
    generated(alloc, after_one(alloc, row)?)
}

#[test]
fn free_variables_of_a_term(rt: HostRuntime) -> Result<(), Fail> {
    let term = example(rt.alloc())?;
    assert!(rt; depth(term.get()) == 3);
    let table = [(0, false, false), (1, true, true), (2, true, true)];
    for (var, index, tensor) in table {
        assert_eq!(rt;
            (free_index(term.get(), var), free_tensor(term.get(), var)),
            (index, tensor)
        );
    }
    Ok(())
}

/// `x + j`, in which x is the variable of a number.
fn place(alloc: Global, x: u32) -> Result<Aff, Fail>
    ensures { IfOk result (λ n. n ≡ sum_of (var_form x) (var_form 0)) }
{
    let inner = Aff::var(alloc, 0)?;
    Ok(Aff::var(alloc, x)?.add(alloc, &inner)?)
}

/// `gen j < size 0. (input 0)[x + j]`, in which x is the variable of a number.
fn gathered(alloc: Global, x: u32) -> Result<Boxed<Term>, Fail>
    ensures { IfOk result (λ e. e ≡ Term.Gen (size_form 0) (Term.Index (Term.TVar 0) (sum_of (var_form x) (var_form 0)))) }
{
    let element = element(alloc, 0, place(alloc, x)?)?;
    generated(alloc, element)
}

/// A term in a box.
fn boxed(alloc: Global, term: Result<Term, MapRefusal>) -> Result<Boxed<Term>, Fail> {
    Ok(Boxed::new(alloc, term?)?)
}

/// The form of a variable, alone.
fn form_of(alloc: Global, var: u32) -> Result<Items<Aff>, Fail>
    ensures { IfOk result (λ by. by ≡ var_form var ∷ []) }
{
    let mut by = Items::new(alloc);
    by.push(Aff::var(alloc, var)?)?;
    Ok(by)
}

/// The variable around the gen becomes a variable of two new ones.
fn put_outer(alloc: Global, term: &Term, outer: u32) -> Result<Boxed<Term>, Fail>
    requires one_of_two { outer < 2 }
    requires gathered { term.now ≡ Term.Gen (size_form 0) (Term.Index (Term.TVar 0) (sum_of (var_form 1) (var_form 0))) }
{
    let by = form_of(alloc, outer)?;
    let map = PutIndex { by, under: 2 };
    boxed(alloc, map_term(alloc, &map, term))
}

/// Whether the outer variable becomes another.
fn outer_becomes(alloc: Global, term: &Term, outer: u32, wanted: u32) -> Result<bool, Fail>
    requires one_of_two { outer < 2 }
    requires gathered { term.now ≡ Term.Gen (size_form 0) (Term.Index (Term.TVar 0) (sum_of (var_form 1) (var_form 0))) }
{
    let wanted = gathered(alloc, wanted)?;
    let put = put_outer(alloc, term, outer)?;
    Ok(same(put.get(), wanted.get()))
}

#[test]
fn an_outer_variable_is_put_under_a_gen(rt: HostRuntime) -> Result<(), Fail> {
    let alloc = rt.alloc();
    let term = gathered(alloc, 1)?;
    assert!(rt; outer_becomes(alloc, term.get(), 0, 1)?);
    assert!(rt; outer_becomes(alloc, term.get(), 1, 2)?);
    Ok(())
}

/// `t + input` of a number, in which t is variable 0.
fn sum_with_input(alloc: Global, input: u32) -> Result<Boxed<Term>, Fail>
    ensures { IfOk result (λ e. e ≡ Term.Add (Term.TVar 0) (Term.TVar input)) }
{
    let bound = Boxed::new(alloc, Term::TVar(0))?;
    let free = Boxed::new(alloc, Term::TVar(input))?;
    Ok(Boxed::new(alloc, Term::Add(bound, free))?)
}

/// `let t = 1 in t + input` of a number.
fn added(alloc: Global, input: u32) -> Result<Boxed<Term>, Fail>
    ensures { IfOk result (λ e. e ≡ Term.Let (Term.Lit 1) (Term.Add (Term.TVar 0) (Term.TVar input))) }
{
    let sum = sum_with_input(alloc, input)?;
    after_one(alloc, sum)
}

/// Input 0 becomes input 5.
fn put_five(alloc: Global, term: &Term) -> Result<Boxed<Term>, Fail>
    requires { term.now ≡ Term.Let (Term.Lit 1) (Term.Add (Term.TVar 0) (Term.TVar 1)) }
{
    let by = Term::TVar(5);
    let map = PutTensor { by, under: 0 };
    boxed(alloc, map_term(alloc, &map, term))
}

/// Moved under two new lets.
fn moved(alloc: Global, term: &Term) -> Result<Boxed<Term>, Fail>
    requires { term.now ≡ Term.Let (Term.Lit 1) (Term.Add (Term.TVar 0) (Term.TVar 1)) }
{
    let map = Shift {
        index: 3,
        tensor: 2,
    };
    boxed(alloc, map_term(alloc, &map, term))
}

/// Whether a term is the sum with an input of this number.
fn is_added(alloc: Global, term: &Term, input: u32) -> Result<bool, Fail> {
    let wanted = added(alloc, input)?;
    Ok(same(term, wanted.get()))
}

#[test]
fn what_is_put_under_a_let_is_moved(rt: HostRuntime) -> Result<(), Fail> {
    let alloc = rt.alloc();
    let term = added(alloc, 1)?;
    let put = put_five(alloc, term.get())?;
    assert!(rt; is_added(alloc, put.get(), 6)?);
    let moved = moved(alloc, term.get())?;
    assert!(rt; is_added(alloc, moved.get(), 3)?);
    Ok(())
}

/// The form of a variable.
fn variable(alloc: Global, var: u32) -> Result<Aff, MapRefusal>
    ensures { IsAnswer (var_form var) None result }
{
    match Aff::var(alloc, var) {
        Ok(form) => Ok(form),
        Err(_) => Err(MapRefusal::Memory),
    }
}

/// Puts each variable for itself.
struct Same;

impl VarMap for Same {
    ghost use Rattle.std.specs.Prelude.{true};
    ghost use Rattle.affine_index.specs.Form.{var_form};
    ghost use Rattle.term_tree.specs.declared.term.Term.{TVar};
    ghost use Rattle.binders.specs.Answers.{no_refusals};

    ghost meaning = { λ m. record { for_index = λ i j v. var_form v; for_tensor = λ i j q. TVar q } };

    ghost refusals = { λ m. no_refusals };

    ghost reach = { λ m. record { has_index = λ i j v. true; has_tensor = λ i j q. true } };

    fn index(&self, alloc: Global, _depths: Depths, var: u32) -> Result<Aff, MapRefusal> {
        variable(alloc, var)
    }

    fn tensor(&self, _alloc: Global, _depths: Depths, var: u32) -> Result<Term, MapRefusal> {
        Ok(Term::TVar(var))
    }
}

fn copied(alloc: Global, term: &Term) -> Result<Boxed<Term>, Fail> {
    let copy = copy(alloc, term)?;
    Ok(Boxed::new(alloc, copy)?)
}

/// The sum of the term with itself, or its transpose.
fn grown(alloc: Global, term: Boxed<Term>, step: u8) -> Result<Boxed<Term>, Fail> {
    if step == b'+' {
        let first = copied(alloc, term.get())?;
        Ok(Boxed::new(alloc, Term::Add(first, term))?)
    } else {
        Ok(Boxed::new(alloc, Term::Transpose(term))?)
    }
}

fn mapped(alloc: Global, term: &Term) -> Result<Term, MapRefusal>
    requires { node_depth term.now ≤ 100 }
{
    map_term(alloc, &Same, term)
}

/// Whether the mapped term is the term.
fn is_kept(alloc: Global, term: &Term) -> Result<bool, Fail>
    requires { node_depth term.now ≤ 100 }
{
    let mapped = boxed(alloc, mapped(alloc, term))?;
    Ok(same(mapped.get(), term))
}

/// How many nodes are too many.
fn too_many(alloc: Global, term: &Term) -> Option<u64>
    requires { node_depth term.now ≤ 100 }
{
    match mapped(alloc, term) {
        Ok(mapped) => {
            spent(mapped);
            None
        }
        Err(MapRefusal::TooManyNodes { nodes }) => Some(nodes),
        Err(_) => None,
    }
}

/// A term of 20,000 nodes.
fn greatest(alloc: Global) -> Result<Boxed<Term>, Fail> {
    let mut term = Boxed::new(alloc, Term::Lit(0))?;
    for step in b"++t+t+t++++t+++++t" {
        term = grown(alloc, term, *step)?;
    }
    Ok(term)
}

#[test]
fn a_node_over_20000_is_too_many(rt: HostRuntime) -> Result<(), Fail> {
    let alloc = rt.alloc();
    let term = greatest(alloc)?;
    assert!(rt; depth(term.get()) == 18);
    assert!(rt; nodes(term.get()) == 20_000);
    assert!(rt; is_kept(alloc, term.get())?);
    let over = grown(alloc, term, b't')?;
    assert!(rt; depth(over.get()) == 19);
    assert_eq!(rt; too_many(alloc, over.get()), Some(20_001));
    Ok(())
}
