ghost use Rattle.std.specs.Prelude.{◌≡◌, ◌≤◌, length, IfOk};
ghost use Rattle.path_focus.specs.Focus.{IsFew};

use affine_index::Aff;
use fact_list::{Facts, PathFact};
use path_focus::{Arg, Focus, Law};
use schedule_script::{Script, ScriptFault, read_script};
use script_arguments::resolve;
use shape_rules::Shapes;
use sqlite_items::{Boxed, Items};
use std::alloc::Global;
use std::test::Fail;
use term_tree::{Name, SizeDecl, Term};

/// What an argument is.
#[derive(Clone, Copy)]
enum Wanted {
    Bad,
    Size(u32),
    Var(u32),
    Named(Law),
    Tensor(u32),
    Comparisons(usize),
}

/// N
fn sizes(alloc: Global) -> Result<Items<SizeDecl>, Fail>
    ensures { IfOk result (λ ds. length ds ≡ 1) }
{
    let name = Name::new(String::from_str(alloc, "N")?);
    let mut sizes = Items::new(alloc);
    sizes.push(SizeDecl {
        name,
        low: 0,
        high: 8,
    })?;
    Ok(sizes)
}

/// A place under two gens and one let.
fn place(alloc: Global) -> Result<Focus, Fail>
    ensures { IfOk result IsFew }
{
    let mut path = Items::new(alloc);
    path.push(PathFact::Bound(Aff::size(alloc, 0)?))?;
    path.push(PathFact::Bound(Aff::size(alloc, 0)?))?;
    let mut lets = Items::new(alloc);
    lets.push(Items::new(alloc))?;
    let term = Boxed::new(alloc, Term::TVar(0))?;
    Ok(Focus {
        facts: Facts {
            sizes: Items::new(alloc),
            assumes: Items::new(alloc),
            path,
        },
        shapes: Shapes {
            lets,
            inputs: Items::new(alloc),
        },
        bound: Items::new(alloc),
        term,
    })
}

/// The text of a step of this rule with this argument.
fn step(alloc: Global, rule: &str, argument: &str) -> Result<String, Fail> {
    let mut text = String::from_str(alloc, "schedule 1; at 0 do ")?;
    text.push_str(rule)?;
    text.push_str("(")?;
    text.push_str(argument)?;
    text.push_str(");")?;
    Ok(text)
}

fn is_wanted(alloc: Global, found: &Arg, wanted: Wanted) -> Result<bool, Fail> {
    match (found, wanted) {
        (Arg::Bad, Wanted::Bad) => Ok(true),
        (Arg::Ix(x), Wanted::Size(size)) => Ok(x.same(&Aff::size(alloc, size)?)),
        (Arg::Ix(x), Wanted::Var(var)) => Ok(x.same(&Aff::var(alloc, var)?)),
        (Arg::Law(law), Wanted::Named(other)) => Ok(*law == other),
        (Arg::TensorVar(var), Wanted::Tensor(other)) => Ok(*var == other),
        (Arg::Cond(cond), Wanted::Comparisons(count)) => Ok(cond.all.len() == count),
        _ => Ok(false),
    }
}

/// What is read of a text, which the test keeps short enough.
fn read(alloc: Global, text: &str) -> Result<Script, ScriptFault> {
    if text.len() > 2_147_483_647 {
        return Err(ScriptFault::Memory);
    }
    read_script(alloc, text.as_bytes())
}

/// Whether the one argument of the one step is what is wanted.
fn has_wanted(
    alloc: Global,
    sizes: &[SizeDecl],
    focus: &Focus,
    script: &Script,
    wanted: Wanted,
) -> Result<bool, Fail>
    requires sizes { length sizes.now ≤ 2147483647 }
    requires few { IsFew focus.now }
{
    match script.steps.as_slice() {
        [only] => match only.args.as_slice() {
            [tree] => {
                let found = resolve(alloc, sizes, focus, only.rule.as_str(), tree)?;
                is_wanted(alloc, &found, wanted)
            }
            _ => Ok(false),
        },
        _ => Ok(false),
    }
}

fn resolves(
    alloc: Global,
    sizes: &[SizeDecl],
    focus: &Focus,
    text: &str,
    wanted: Wanted,
) -> Result<bool, Fail>
    requires sizes { length sizes.now ≤ 2147483647 }
    requires few { IsFew focus.now }
{
    match read(alloc, text) {
        Ok(script) => has_wanted(alloc, sizes, focus, &script, wanted),
        Err(_) => Ok(false),
    }
}

#[test]
fn arguments_at_a_place(rt: HostRuntime) -> Result<(), Fail> {
    let alloc = rt.alloc();
    let rows: [(&str, &str, Wanted); 9] = [
        ("cut_gen", "(2 * N + 1) / 2", Wanted::Size(0)),
        ("cut_gen", "i0", Wanted::Var(1)),
        ("cut_gen", "i00", Wanted::Bad),
        ("cut_gen", "i0 * i1", Wanted::Bad),
        ("cut_gen", "1099511627777 - 1", Wanted::Bad),
        ("ring", "(add_comm)", Wanted::Named(Law::AddComm)),
        ("let_use", "t0", Wanted::Tensor(0)),
        ("guard_intro", "i0 < N and i1 == 0", Wanted::Comparisons(2)),
        ("guard_intro", "i0 < M", Wanted::Bad),
    ];
    let sizes = sizes(alloc)?;
    let focus = place(alloc)?;
    for (rule, argument, wanted) in rows {
        let text = step(alloc, rule, argument)?;
        assert!(rt; resolves(alloc, sizes.as_slice(), &focus, text.as_str(), wanted)?);
    }
    Ok(())
}
