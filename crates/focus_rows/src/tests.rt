ghost use Rattle.std.specs.Prelude.{◌≡◌, ◌≤◌, [], ◌∷◌, length, true, All, IfOk};
ghost use Rattle.affine_index.specs.Form.{size_form, var_form};
ghost use Rattle.path_focus.specs.Focus.{IsProper};
ghost use Rattle.path_focus.specs.Laws.{IsLimited};
ghost use Rattle.term_tree.specs.Counts.{node_count};
ghost use Rattle.term_tree.specs.Modules.{inputs_scoped, module_scoped, outputs_scoped};
ghost use Rattle.term_tree.specs.Scope.{term_scoped};
ghost use Rattle.term_tree.specs.declared.term.Term.TheVariants as variant;

use admission::admit;
use affine_index::{Aff, AffRefusal, Cmp};
use owned_values::{spent, two};
use path_focus::{Focus, PathRefusal, focus, plug};
use sqlite_items::{Boxed, Items};
use std::alloc::Global;
use std::test::Fail;
use term_tree::{InputDecl, Module, Name, OutputDecl, Path, SizeDecl, Term, nodes, same};

fn name(alloc: Global, text: &str) -> Result<Name, Fail> {
    Ok(Name::new(String::from_str(alloc, text)?))
}

fn size(alloc: Global) -> Result<Aff, Fail>
    ensures { IfOk result (λ n. n ≡ size_form 0) }
{
    Ok(Aff::size(alloc, 0)?)
}

/// A row, at the variable around it.
fn row(alloc: Global, array: Boxed<Term>) -> Result<Boxed<Term>, Fail>
    ensures { IfOk result (λ e. e ≡ variant.Index array (var_form 0)) }
{
    let at = Aff::var(alloc, 0)?;
    let term = Boxed::new(alloc, Term::Index(array, at))?;
    Ok(term)
}

/// N rows.
fn rows(alloc: Global, each: Boxed<Term>) -> Result<Boxed<Term>, Fail>
    ensures { IfOk result (λ e. e ≡ variant.Gen (size_form 0) each) }
{
    let extent = size(alloc)?;
    let term = Boxed::new(alloc, Term::Gen(extent, each))?;
    Ok(term)
}

fn tensor(alloc: Global, var: u32) -> Result<Boxed<Term>, Fail>
    ensures { IfOk result (λ e. e ≡ variant.TVar var) }
{
    let term = Boxed::new(alloc, Term::TVar(var))?;
    Ok(term)
}

/// `gen i < N. (gen j < N. A[j])[i]`
fn copied(alloc: Global) -> Result<Boxed<Term>, Fail>
    ensures scoped { IfOk result (λ e. term_scoped 1 e 0 1 ≡ true) }
    ensures small { IfOk result (λ e. node_count e ≤ 20000) }
{
    let array = rows(alloc, row(alloc, tensor(alloc, 0)?)?)?;
    let term = rows(alloc, row(alloc, array)?)?;
    Ok(term)
}

/// `let t = A in gen i < N. t[i]`
fn named(alloc: Global) -> Result<Boxed<Term>, Fail>
    ensures scoped { IfOk result (λ e. term_scoped 1 e 0 1 ≡ true) }
    ensures small { IfOk result (λ e. node_count e ≤ 20000) }
{
    let array = tensor(alloc, 0)?;
    let body = rows(alloc, row(alloc, tensor(alloc, 0)?)?)?;
    let term = Boxed::new(alloc, Term::Let(array, body))?;
    Ok(term)
}

/// `size N in 0..8;`
fn sizes(alloc: Global) -> Result<Items<SizeDecl>, Fail>
    ensures { IfOk result (λ ds. length ds ≡ 1) }
{
    let name = name(alloc, "N")?;
    let mut sizes = Items::new(alloc);
    sizes.push(SizeDecl {
        name,
        low: 0,
        high: 8,
    })?;
    Ok(sizes)
}

/// `[N]`
fn extents(alloc: Global) -> Result<Items<Aff>, Fail>
    ensures { IfOk result (λ ns. ns ≡ size_form 0 ∷ []) }
{
    let extent = size(alloc)?;
    let mut extents = Items::new(alloc);
    extents.push(extent)?;
    Ok(extents)
}

/// `input A[N];`
fn inputs(alloc: Global) -> Result<Items<InputDecl>, Fail>
    ensures { IfOk result (λ ds. (inputs_scoped 1 ds ≡ true) × (length ds ≡ 1)) }
{
    let name = name(alloc, "A")?;
    let extents = extents(alloc)?;
    let mut inputs = Items::new(alloc);
    inputs.push(InputDecl { name, extents })?;
    Ok(inputs)
}

/// One output.
fn outputs(alloc: Global, term: Boxed<Term>) -> Result<Items<OutputDecl>, Fail>
    requires scoped { term_scoped 1 term 0 1 ≡ true }
    requires small { node_count term ≤ 20000 }
    ensures { IfOk result (λ os. (outputs_scoped 1 1 os ≡ true) × (length os ≡ 1) × All (λ o. node_count o.term ≤ 20000) os) }
{
    let name = name(alloc, "B")?;
    let mut outputs = Items::new(alloc);
    outputs.push(OutputDecl {
        name,
        term: term.into_inner(),
    })?;
    Ok(outputs)
}

/// `size N in 0..8; example N = 3; input A[N];` and one output.
fn module(alloc: Global, term: Boxed<Term>) -> Result<Module, Fail>
    requires scoped { term_scoped 1 term 0 1 ≡ true }
    requires small { node_count term ≤ 20000 }
    ensures scoped { IfOk result (λ m. module_scoped m ≡ true) }
    ensures limited { IfOk result (λ m. IsLimited m) }
    ensures assumes { IfOk result (λ m. m.assumes ≡ []) }
    ensures outputs { IfOk result (λ m. length m.outputs ≡ 1) }
    ensures example { IfOk result (λ m. length m.example ≡ length m.sizes) }
{
    let outputs = outputs(alloc, term)?;
    let sizes = sizes(alloc)?;
    let inputs = inputs(alloc)?;
    let example = Items::from_slice(alloc, &[3])?;
    Ok(Module {
        version: 1,
        sizes,
        assumes: Items::new(alloc),
        example,
        inputs,
        outputs,
    })
}

fn path(alloc: Global, output: u32, steps: &[u32]) -> Result<Path, Fail> {
    Ok(Path {
        output,
        steps: Items::from_slice(alloc, steps)?,
    })
}

/// Whether the facts that are listed at a place are just these.
fn are_facts(alloc: Global, focus: &Focus, forms: &[Aff]) -> Result<bool, Fail>
    requires { IsProper focus.now }
{
    let goal = Aff::literal(alloc, 0)?;
    let listed = focus.facts.list(alloc, &goal)?;
    if listed.len() != forms.len() {
        return Ok(false);
    }
    for i in 0..forms.len() {
        match &listed.as_slice()[i] {
            Cmp::Ge(form) => {
                if !form.same(&forms[i]) {
                    return Ok(false);
                }
            }
            Cmp::Eq(_) => return Ok(false),
        }
    }
    Ok(true)
}

fn difference(
    alloc: Global,
    a: Result<Aff, AffRefusal>,
    b: Result<Aff, AffRefusal>,
) -> Result<Aff, AffRefusal> {
    let (a, b) = two(a, b)?;
    a.sub(alloc, &b)
}

/// `8 - N`
fn high(alloc: Global) -> Result<Aff, AffRefusal> {
    difference(alloc, Aff::literal(alloc, 8), Aff::size(alloc, 0))
}

/// `N - i - 1`
fn below(alloc: Global) -> Result<Aff, AffRefusal> {
    let rest = difference(alloc, Aff::size(alloc, 0), Aff::var(alloc, 0));
    difference(alloc, rest, Aff::literal(alloc, 1))
}

/// `N >= 0`, `8 - N >= 0`, `i >= 0`, `N - i - 1 >= 0`
fn expected(alloc: Global) -> Result<Items<Aff>, Fail> {
    let mut forms = Items::new(alloc);
    forms.push(Aff::size(alloc, 0)?)?;
    forms.push(high(alloc)?)?;
    forms.push(Aff::var(alloc, 0)?)?;
    forms.push(below(alloc)?)?;
    Ok(forms)
}

/// Whether there is a focus, and these are its facts.
fn has_facts(alloc: Global, found: Result<Focus, PathRefusal>, forms: &[Aff]) -> Result<bool, Fail>
    requires { IfOk found (λ f. IsProper f) }
{
    match found {
        Ok(focus) => {
            let same = are_facts(alloc, &focus, forms);
            spent(focus);
            same
        }
        Err(_) => Ok(false),
    }
}

/// Whether these are the facts at a place of the first output of a module that is found to be sound.
fn facts_are(alloc: Global, module: &Module, steps: &[u32], forms: &[Aff]) -> Result<bool, Fail>
    requires scoped { module_scoped «module».now ≡ true }
    requires limited { IsLimited «module».now }
    requires assumes { «module».now.assumes ≡ [] }
    requires outputs { length «module».now.outputs ≡ 1 }
    requires example { length «module».now.example ≡ length «module».now.sizes }
{
    let path = path(alloc, 0, steps)?;
    match admit(alloc, module) {
        Ok(()) => has_facts(alloc, focus(alloc, module, &path), forms),
        Err(_) => Ok(false),
    }
}

/// What the rows say of a focus.
#[derive(Clone, Copy)]
struct Seen {
    nodes: u64,
    bound: usize,
    lets: usize,
    moved: bool,
}

/// Whether one let is there, with tensor variable 1 as its definition.
fn is_moved(focus: &Focus) -> bool {
    match focus.bound.as_slice() {
        [only] => only.var == 0 && same(only.term.get(), &Term::TVar(1)),
        _ => false,
    }
}

fn look(found: Result<Focus, PathRefusal>) -> Result<Seen, PathRefusal> {
    match found {
        Ok(focus) => {
            let seen = Seen {
                nodes: nodes(focus.term.get()),
                bound: focus.bound.len(),
                lets: focus.shapes.lets.len(),
                moved: is_moved(&focus),
            };
            spent(focus);
            Ok(seen)
        }
        Err(refusal) => Err(refusal),
    }
}

/// What is at a place of a module, where it is found to be sound.
fn seen_at(
    alloc: Global,
    module: &Module,
    output: u32,
    steps: &[u32],
) -> Result<Option<Result<Seen, PathRefusal>>, Fail>
    requires scoped { module_scoped «module».now ≡ true }
    requires limited { IsLimited «module».now }
    requires assumes { «module».now.assumes ≡ [] }
    requires outputs { length «module».now.outputs ≡ 1 }
    requires example { length «module».now.example ≡ length «module».now.sizes }
{
    let path = path(alloc, output, steps)?;
    match admit(alloc, module) {
        Ok(()) => Ok(Some(look(focus(alloc, module, &path)))),
        Err(_) => Ok(None),
    }
}

fn seen_in_copied(
    alloc: Global,
    output: u32,
    steps: &[u32],
) -> Result<Option<Result<Seen, PathRefusal>>, Fail> {
    let module = module(alloc, copied(alloc)?)?;
    seen_at(alloc, &module, output, steps)
}

fn seen_in_named(alloc: Global, steps: &[u32]) -> Result<Option<Result<Seen, PathRefusal>>, Fail> {
    let module = module(alloc, named(alloc)?)?;
    seen_at(alloc, &module, 0, steps)
}

fn facts_below_a_generation(alloc: Global) -> Result<bool, Fail> {
    let module = module(alloc, copied(alloc)?)?;
    let forms = expected(alloc)?;
    facts_are(alloc, &module, &[0], forms.as_slice())
}

#[test]
fn the_facts_below_a_generation(rt: HostRuntime) -> Result<(), Fail> {
    let alloc = rt.alloc();
    assert!(rt; facts_below_a_generation(alloc)?);
    match seen_in_copied(alloc, 0, &[0])? {
        Some(Ok(seen)) => assert_eq!(rt; (seen.bound, seen.nodes), (0, 4)),
        _ => assert!(rt; false),
    }
    Ok(())
}

#[test]
fn a_path_to_no_node(rt: HostRuntime) -> Result<(), Fail> {
    let alloc = rt.alloc();
    assert!(rt;
        matches!(
            seen_in_copied(alloc, 0, &[0, 1])?,
            Some(Err(PathRefusal::NoSuchPath))
        )
    );
    assert!(rt;
        matches!(
            seen_in_copied(alloc, 1, &[])?,
            Some(Err(PathRefusal::NoSuchPath))
        )
    );
    Ok(())
}

#[test]
fn in_a_definition_and_in_the_body_of_a_let(rt: HostRuntime) -> Result<(), Fail> {
    let alloc = rt.alloc();
    match seen_in_named(alloc, &[0])? {
        Some(Ok(seen)) => assert_eq!(rt; (seen.bound, seen.lets), (0, 0)),
        _ => assert!(rt; false),
    }
    match seen_in_named(alloc, &[1, 0])? {
        Some(Ok(seen)) => assert!(rt; seen.moved && seen.lets == 1),
        _ => assert!(rt; false),
    }
    Ok(())
}

/// Whether this is the term of the one output.
fn is_output(module: &Module, wanted: &Term) -> bool {
    match module.outputs.as_slice() {
        [only] => same(&only.term, wanted),
        _ => false,
    }
}

/// Whether a module has this term as its one output.
fn has_output(module: Result<Module, PathRefusal>, wanted: &Term) -> Result<bool, Fail> {
    let module = module?;
    let is = is_output(&module, wanted);
    spent(module);
    Ok(is)
}

/// Whether a tensor that is put for an inner generation is in its place.
fn is_plugged(alloc: Global, module: &Module) -> Result<bool, Fail>
    requires scoped { module_scoped «module».now ≡ true }
    requires limited { IsLimited «module».now }
    requires assumes { «module».now.assumes ≡ [] }
    requires outputs { length «module».now.outputs ≡ 1 }
    requires example { length «module».now.example ≡ length «module».now.sizes }
{
    let wanted = rows(alloc, row(alloc, tensor(alloc, 0)?)?)?;
    let path = path(alloc, 0, &[0, 0])?;
    let tensor = tensor(alloc, 0)?;
    has_output(plug(alloc, module, &path, tensor), wanted.get())
}

#[test]
fn a_term_in_place_of_another(rt: HostRuntime) -> Result<(), Fail> {
    let alloc = rt.alloc();
    let module = module(alloc, copied(alloc)?)?;
    assert!(rt; is_plugged(alloc, &module)?);
    Ok(())
}
