//! Arguments at a place.

ghost use Rattle.std.specs.Prelude.{◌≡◌, ◌≤◌, length, map, IfOk};
ghost use Rattle.fact_list.specs.Facts.{binders};
ghost use Rattle.path_focus.specs.Focus.{IsFew};
ghost use Rattle.script_arguments.specs.Arguments as spec;
ghost use Rattle.script_arguments.specs.Arguments.{argument_at, arguments_at};
ghost use Rattle.script_arguments.specs.Forms.{comparisons_of};
ghost use Rattle.script_arguments.specs.Names.{form_named};

use crate::forms::{comparisons, form};
use crate::names::{form_named, law_named, let_named};
use affine_index::{Aff, Cmp, Cond};
use fact_list::PathFact;
use path_focus::{Arg, Focus};
use schedule_script::{ArgTree, IxTree};
use sqlite_items::Items;
use std::alloc::{AllocError, Global};
use term_tree::SizeDecl;

fn as_form(form: Option<Aff>) -> Arg
    ensures { result ≡ spec.as_form form }
{
    match form {
        Some(form) => Arg::Ix(form),
        None => Arg::Bad,
    }
}

fn as_condition(all: Option<Items<Cmp>>) -> Arg
    ensures { result ≡ spec.as_condition all }
{
    match all {
        None => Arg::Bad,
        Some(all) => {
            if all.len() == 0 {
                Arg::Bad
            } else {
                Arg::Cond(Cond { all })
            }
        }
    }
}

/// A name that stands alone.
fn lone_name(
    alloc: Global,
    sizes: &[SizeDecl],
    vars: u32,
    lets: u32,
    rule: &str,
    name: &str,
) -> Result<Arg, AllocError>
    requires { length sizes.now ≤ 2147483647 }
    ensures { IfOk result (λ a. a ≡ spec.lone_name (map (λ d. d.name) sizes.now) vars lets rule.now name.now) }
{
    if rule == "ring" {
        if let Some(law) = law_named(name) {
            return Ok(Arg::Law(law));
        }
    } else if rule == "let_use" {
        if let Some(var) = let_named(lets, name) {
            return Ok(Arg::TensorVar(var));
        }
    }
    Ok(as_form(form_named(alloc, sizes, vars, name)?))
}

fn index_argument(
    alloc: Global,
    sizes: &[SizeDecl],
    vars: u32,
    lets: u32,
    rule: &str,
    tree: &IxTree,
) -> Result<Arg, AllocError>
    requires { length sizes.now ≤ 2147483647 }
    ensures { IfOk result (λ a. a ≡ spec.index_argument (map (λ d. d.name) sizes.now) vars lets rule.now tree.now) }
{
    match tree {
        IxTree::Name(name) => lone_name(alloc, sizes, vars, lets, rule, name.as_str()),
        _ => Ok(as_form(form(alloc, sizes, vars, tree)?)),
    }
}

fn argument(
    alloc: Global,
    sizes: &[SizeDecl],
    vars: u32,
    lets: u32,
    rule: &str,
    tree: &ArgTree,
) -> Result<Arg, AllocError>
    requires { length sizes.now ≤ 2147483647 }
    ensures { IfOk result (λ a. a ≡ spec.argument (map (λ d. d.name) sizes.now) vars lets rule.now tree.now) }
{
    match tree {
        ArgTree::Ix(tree) => index_argument(alloc, sizes, vars, lets, rule, tree.get()),
        ArgTree::Cond(trees) => {
            Ok(as_condition(comparisons(alloc, sizes, vars, trees.as_slice())?))
        }
    }
}

/// How many gens and sums are around a place.
fn vars_at(path: &[PathFact]) -> u32
    requires { length path.now ≤ 2147483647 }
    ensures { result ≡ binders path.now }
{
    let mut count = 0;
    for fact in path {
        match fact {
            PathFact::Bound(_) => count += 1,
            PathFact::Holds(_) => {}
        }
    }
    count
}

/// An argument of a rule as what it is at the focus. `sizes` are those of the module. A name is one of a size or the canonical one of a variable
/// of a gen or sum (`i0` is the outermost); alone it is a law where the rule is `ring`, the tensor variable of a let (`t0` is the outermost)
/// where it is `let_use`, if there is one of this name. What means nothing there, a condition without a comparison, and what breaks the limits of
/// forms in some number, operator or comparison is `Bad`. Each name takes as many steps as there are names.
pub fn resolve(
    alloc: Global,
    sizes: &[SizeDecl],
    focus: &Focus,
    rule: &str,
    tree: &ArgTree,
) -> Result<Arg, AllocError>
    requires sizes { length sizes.now ≤ 2147483647 }
    requires few { IsFew focus.now }
    ensures { IfOk result (λ a. a ≡ argument_at (map (λ d. d.name) sizes.now) focus.now rule.now tree.now) }
{
    let vars = vars_at(focus.facts.path.as_slice());
    let lets = focus.shapes.lets.len() as u32;
    argument(alloc, sizes, vars, lets, rule, tree)
}

/// Each argument of a rule in order.
pub fn resolve_all(
    alloc: Global,
    sizes: &[SizeDecl],
    focus: &Focus,
    rule: &str,
    trees: &[ArgTree],
) -> Result<Items<Arg>, AllocError>
    requires sizes { length sizes.now ≤ 2147483647 }
    requires few { IsFew focus.now }
    ensures { IfOk result (λ all. all ≡ arguments_at (map (λ d. d.name) sizes.now) focus.now rule.now trees.now) }
{
    let mut all = Items::new(alloc);
    for tree in trees {
        all.push(resolve(alloc, sizes, focus, rule, tree)?)?;
    }
    Ok(all)
}
