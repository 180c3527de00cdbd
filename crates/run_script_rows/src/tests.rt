//! Scripts on sources: the last version, or the first step that fails.

ghost use Rattle.std.specs.Prelude.{◌≡◌, ◌≤◌, length, true, IfSome};
ghost use Rattle.schedule_run.specs.Versions.{MayRun};
ghost use Rattle.source_grammar.specs.Source.{nodes};
ghost use Rattle.term_tree.specs.Modules.{module_scoped};

use admission::admit;
use atl_reader::read_module;
use path_focus::RuleFault;
use schedule_run::{Staged, StepFault, StepKind, last_version, run_script};
use schedule_script::{Script, read_script};
use std::alloc::Global;
use std::test::Fail;
use term_tree::{Module, same};

/// The most bytes of a text.
const MOST: usize = 1_048_576;

/// The module, if it is admitted.
fn admitted(alloc: Global, module: Module) -> Option<Module>
    requires scoped { module_scoped «module» ≡ true }
    requires few { nodes «module».outputs ≤ 20000 }
    requires sizes { length «module».sizes ≤ 2147483647 }
    requires inputs { length «module».inputs ≤ 2147483647 }
    requires outputs { length «module».outputs ≤ 2147483647 }
    requires example { length «module».example ≡ length «module».sizes }
    ensures { IfSome result MayRun }
{
    match admit(alloc, &module) {
        Ok(()) => Some(module),
        Err(_) => None,
    }
}

/// The module of a source.
fn source(alloc: Global, text: &str) -> Option<Module>
    ensures { IfSome result MayRun }
{
    if text.len() > MOST {
        return None;
    }
    match read_module(alloc, text.as_bytes()) {
        Ok(module) => admitted(alloc, module),
        Err(_) => None,
    }
}

fn script(alloc: Global, text: &str) -> Option<Script> {
    if text.len() > MOST {
        return None;
    }
    match read_script(alloc, text.as_bytes()) {
        Ok(script) => Some(script),
        Err(_) => None,
    }
}

/// The number of the rule that a step breaks, and of the condition or of the nodes.
fn broken(kind: StepKind) -> (u64, u64) {
    match kind {
        StepKind::NoSuchRule => (21, 0),
        StepKind::NoSuchPath => (22, 0),
        StepKind::Rule(RuleFault::PatternMismatch) => (23, 0),
        StepKind::Rule(RuleFault::BadArgument) => (24, 0),
        StepKind::Rule(RuleFault::ConditionNotShown { condition }) => (25, condition),
        StepKind::Rule(RuleFault::ExtraLines) => (26, 0),
        StepKind::TooManyNodes { nodes } => (15, nodes),
        StepKind::TooDeep => (4, 0),
        StepKind::RankTooLarge => (12, 0),
        StepKind::CoefficientTooLarge => (16, 0),
        StepKind::IndexTooLong => (17, 0),
        StepKind::Rule(_) | StepKind::Memory => (0, 0),
    }
}

/// How a script ends: without a fault, or at a step and a rule that it breaks.
pub fn ending(alloc: Global, text: &str, steps: &str) -> Option<(u64, u64, u64)> {
    let module = source(alloc, text)?;
    let script = script(alloc, steps)?;
    match last_version(alloc, module, &script) {
        Ok(_) => Some((0, 0, 0)),
        Err(fault) => {
            let (number, detail) = broken(fault.kind);
            Some((fault.step, number, detail))
        }
    }
}

/// Whether the versions have this number, and the outputs of the last are those of this source.
fn is_staged(staged: &Staged, count: usize, wanted: &Module) -> bool {
    let versions = staged.versions.as_slice();
    match versions {
        [.., last] => versions.len() == count && are_same(last, wanted),
        [] => false,
    }
}

/// Whether the first outputs are the same.
fn are_same(a: &Module, b: &Module) -> bool {
    match (a.outputs.as_slice(), b.outputs.as_slice()) {
        ([one, ..], [other, ..]) => same(&one.term, &other.term),
        _ => false,
    }
}

/// Whether a script makes so many versions of a source, of which this source has the last.
pub fn becomes(alloc: Global, text: &str, steps: &str, count: usize, last: &str) -> Option<bool> {
    let wanted = source(alloc, last)?;
    let script = script(alloc, steps)?;
    let module = source(alloc, text)?;
    match run_script(alloc, module, &script) {
        Ok(staged) => Some(is_staged(&staged, count, &wanted)),
        Err(_) => Some(false),
    }
}

const ROW: &str = "atl 1; size N in 0..8; example N = 3; input A[N]; output B = ";

const GRID: &str =
    "atl 1; size N in 0..8; size M in 0..8; example N = 1, M = 2; input A[N][M]; output B = ";

pub fn joined(alloc: Global, declared: &str, term: &str) -> Result<String, Fail> {
    Ok(format!(in alloc; "{declared}{term};")?)
}

#[test]
fn versions_follow_the_steps(rt: HostRuntime) -> Result<(), Fail> {
    let alloc = rt.alloc();
    let nested = "gen i < N. (gen j < N. A[j])[i]";
    let rows: [(&str, &str, &str, usize, &str); 6] = [
        (ROW, nested, "schedule 1;", 1, nested),
        (
            ROW,
            nested,
            "schedule 1; at 0.0 do beta by {3: 1} by {4: 1};",
            2,
            "gen i < N. A[i]",
        ),
        (
            GRID,
            "gen i < N. sum j < M. A[i][j]",
            "schedule 1; at 0 do gen_sum;",
            2,
            "sum j < M. gen i < N. A[i][j]",
        ),
        (
            GRID,
            "gen i < N. sum j < M. A[i][j]",
            "schedule 1; at 0 do gen_sum; at 0 do sum_gen;",
            3,
            "gen i < N. sum j < M. A[i][j]",
        ),
        (
            GRID,
            "gen i < N. gen j < M. A[i][j]",
            "schedule 1; at 0 do swap_gen; at 0.0 do swap_gen;",
            3,
            "transpose(transpose(gen i < N. gen j < M. A[i][j]))",
        ),
        (
            GRID,
            "sum i < N. sum j < M. A[i][j]",
            "schedule 1; at 0 do swap_sum;",
            2,
            "sum j < M. sum i < N. A[i][j]",
        ),
    ];
    for (declared, term, steps, count, last) in &rows {
        let text = joined(alloc, declared, term)?;
        let wanted = joined(alloc, declared, last)?;
        assert_eq!(rt;
            becomes(alloc, text.as_str(), steps, *count, wanted.as_str()),
            Some(true)
        );
    }
    Ok(())
}

#[test]
fn the_first_failing_step_is_told(rt: HostRuntime) -> Result<(), Fail> {
    let alloc = rt.alloc();
    let nested = "gen i < N. (gen j < N. A[j])[i]";
    let rows: [(&str, &str, (u64, u64, u64)); 11] = [
        ("gen i < N. A[i] * 2", "at 0 do nosuch;", (1, 21, 0)),
        ("gen i < N. A[i] * 2", "at 0.5 do beta;", (1, 22, 0)),
        ("gen i < N. A[i] * 2", "at 1 do beta;", (1, 22, 0)),
        ("gen i < N. A[i] * 2", "at 0.5 do nosuch;", (1, 21, 0)),
        ("gen i < N. A[i] * 2", "at 0 do beta;", (1, 23, 0)),
        (nested, "at 0.0 do beta(3);", (1, 24, 0)),
        (nested, "at 0.0 do beta by {3: 1} by {4: 2};", (1, 25, 2)),
        (
            nested,
            "at 0.0 do beta by {3: 1} by {4: 1} by default;",
            (1, 26, 0),
        ),
        (nested, "at 0.0 do beta; at 0.0 do beta;", (2, 23, 0)),
        (
            nested,
            "at 0.0 do beta; at 0.0.0 do beta; at 0 do nosuch;",
            (2, 23, 0),
        ),
        (
            "gen i < N. A[i] + (gen j < N. 1)[N]",
            "at 0.0.1 do beta;",
            (1, 25, 2),
        ),
    ];
    for (term, steps, ends) in &rows {
        let text = joined(alloc, ROW, term)?;
        let steps = format!(in alloc; "schedule 1; {steps}")?;
        assert_eq!(rt; ending(alloc, text.as_str(), steps.as_str()), Some(*ends));
    }
    Ok(())
}

/// A text so many times.
fn repeated(alloc: Global, text: &str, times: usize) -> Result<String, Fail> {
    let mut all = String::new(alloc);
    for _ in 0..times {
        all.push_str(text)?;
    }
    Ok(all)
}

#[test]
fn results_are_within_the_limits(rt: HostRuntime) -> Result<(), Fail> {
    let alloc = rt.alloc();
    let guards = repeated(alloc, "guard 0 >= 0. ", 198)?;
    let guards = guards.as_str();
    let deep = format!(in alloc; "{ROW}gen i < N. gen j < N. {guards}1;")?;
    assert_eq!(rt;
        ending(alloc, deep.as_str(), "schedule 1; at 0 do swap_gen;"),
        Some((1, 4, 0))
    );
    let declared =
        "atl 1; size N in 0..8; size M in 16..16; example N = 3, M = 16; input A[M]; output B = ";
    let large = joined(
        alloc,
        declared,
        "gen i < N. (gen j < M. A[1099511627776 * j])[2 * i]",
    )?;
    assert_eq!(rt;
        ending(alloc, large.as_str(), "schedule 1; at 0.0 do beta;"),
        Some((1, 16, 0))
    );
    Ok(())
}

#[test]
fn a_thousand_steps_are_run(rt: HostRuntime) -> Result<(), Fail> {
    let alloc = rt.alloc();
    let text = joined(alloc, GRID, "sum i < N. sum j < M. A[i][j]")?;
    let steps = repeated(alloc, "at 0 do swap_sum; ", 1000)?;
    let steps = steps.as_str();
    let script = format!(in alloc; "schedule 1; {steps}")?;
    assert_eq!(rt;
        ending(alloc, text.as_str(), script.as_str()),
        Some((0, 0, 0))
    );
    Ok(())
}
