//! Whether a module is well scoped.

ghost use Rattle.std.specs.Prelude.{◌≡◌, ◌+◌, ◌<◌, ◌^◌, length, true};
ghost use Rattle.affine_index.specs.Condition as c;
ghost use Rattle.affine_index.specs.Limited.{items_scoped};
ghost use Rattle.meaning_rows.specs.Scopes.{scope_fold};
ghost use Rattle.term_tree.specs.Counts.{depth_fold};
ghost use Rattle.term_tree.specs.Modules as m;
ghost use Rattle.term_tree.specs.Scope as t;

use affine_index::{Aff, Cmp, Cond};
use term_tree::{InputDecl, Module, OutputDecl, Term, depth};

/// The deepest term that is looked at.
const DEEPEST: u64 = 1000;

fn cmp_scoped(cmp: &Cmp, sizes: usize, vars: usize) -> bool
    ensures { result ≡ items_scoped sizes vars (c.cmp_form cmp.now) }
{
    match cmp {
        Cmp::Ge(x) | Cmp::Eq(x) => x.is_scoped(sizes, vars),
    }
}

fn all_scoped(cmps: &[Cmp], sizes: usize, vars: usize) -> bool
    ensures { result ≡ c.all_scoped sizes vars cmps.now }
{
    for cmp in cmps {
        if !cmp_scoped(cmp, sizes, vars) {
            return false;
        }
    }
    true
}

fn cond_scoped(cond: &Cond, sizes: usize, vars: usize) -> bool
    ensures { result ≡ t.cond_scoped sizes vars cond.now }
{
    match cond.all.as_slice().split_first() {
        None => false,
        Some(_) => all_scoped(cond.all.as_slice(), sizes, vars),
    }
}

/// Over so many sizes, index variables and tensor variables.
fn term_scoped(term: &Term, sizes: usize, vars: usize, tensors: usize) -> bool
    requires vars { vars + depth_fold term.now < 2 ^ 64 }
    requires tensors { tensors + depth_fold term.now < 2 ^ 64 }
    ensures { result ≡ scope_fold sizes term.now vars tensors }
{
    match term {
        Term::Lit(_) => true,
        Term::TVar(q) => (*q as usize) < tensors,
        Term::WordOf(x) => x.is_scoped(sizes, vars),
        Term::Index(e, x) => term_scoped(e.get(), sizes, vars, tensors) && x.is_scoped(sizes, vars),
        Term::Gen(n, e) | Term::Sum(n, e) => n.is_scoped(sizes, 0)
            && term_scoped(e.get(), sizes, vars + 1, tensors),
        Term::Guard(c, e) => cond_scoped(c, sizes, vars)
            && term_scoped(e.get(), sizes, vars, tensors),
        Term::Let(a, b) => term_scoped(a.get(), sizes, vars, tensors)
            && term_scoped(b.get(), sizes, vars, tensors + 1),
        Term::Add(a, b) | Term::Sub(a, b) | Term::Mul(a, b) | Term::Concat(a, b) => {
            term_scoped(a.get(), sizes, vars, tensors) && term_scoped(b.get(), sizes, vars, tensors)
        }
        Term::Flatten(e) | Term::Transpose(e) => term_scoped(e.get(), sizes, vars, tensors),
        Term::Split(k, e) => (0 < *k && *k <= 2147483647)
            && term_scoped(e.get(), sizes, vars, tensors),
        Term::TruncL(n, e) | Term::TruncR(n, e) | Term::PadL(n, e) | Term::PadR(n, e) => {
            n.is_scoped(sizes, 0) && term_scoped(e.get(), sizes, vars, tensors)
        }
    }
}

fn extents_scoped(extents: &[Aff], sizes: usize) -> bool
    ensures { result ≡ m.extents_scoped sizes extents.now }
{
    for extent in extents {
        if !extent.is_scoped(sizes, 0) {
            return false;
        }
    }
    true
}

fn inputs_scoped(inputs: &[InputDecl], sizes: usize) -> bool
    ensures { result ≡ m.inputs_scoped sizes inputs.now }
{
    for input in inputs {
        if !extents_scoped(input.extents.as_slice(), sizes) {
            return false;
        }
    }
    true
}

/// Whether the term is well scoped, where it is not too deep to be looked at.
#[tactic(auto, using(term_tree::proofs::NodeFold::node_depth_laws))]
fn output_scoped(term: &Term, sizes: usize, tensors: usize) -> bool
    requires tensors { tensors < 2 ^ 63 }
    ensures { result ≡ true → t.term_scoped sizes term.now 0 tensors ≡ true }
{
    depth(term) <= DEEPEST && term_scoped(term, sizes, 0, tensors)
}

fn outputs_scoped(outputs: &[OutputDecl], sizes: usize, tensors: usize) -> bool
    requires tensors { tensors < 2 ^ 63 }
    ensures { result ≡ true → m.outputs_scoped sizes tensors outputs.now ≡ true }
{
    for output in outputs {
        if !output_scoped(&output.term, sizes, tensors) {
            return false;
        }
    }
    true
}

/// Whether the assumes and extents hold declared sizes alone, and each output is well scoped and not too deep.
pub fn module_scoped(module: &Module) -> bool
    requires inputs { length «module».now.inputs < 2 ^ 63 }
    ensures { result ≡ true → m.module_scoped «module».now ≡ true }
{
    let sizes = module.sizes.len();
    let tensors = module.inputs.len();
    all_scoped(module.assumes.as_slice(), sizes, 0)
        && inputs_scoped(module.inputs.as_slice(), sizes)
        && outputs_scoped(module.outputs.as_slice(), sizes, tensors)
}
