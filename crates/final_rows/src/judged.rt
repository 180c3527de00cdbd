//! Whole sources that are judged: each with the line of its first fault, or that it is accepted.

ghost use Rattle.std.specs.Prelude.{◌≡◌, ◌≤◌, All, IsTrue, length, true};
ghost use Rattle.term_tree.specs.Counts.{node_count};
ghost use Rattle.term_tree.specs.Modules.{IsSound, module_scoped};

use admission::admit;
use atl_reader::read_module;
use final_rules::FinalFault;
use final_verdict::judge;
use linear_cert::{FinalLine, Lines};
use owned_values::spent;
use sqlite_items::Items;
use std::alloc::Global;
use std::test::Fail;
use term_tree::{Module, OutputDecl, Path, nodes};

/// The most declarations of a kind.
const MOST: usize = 2147483647;

/// Whether each term has as few nodes as a source may have.
fn are_small(outputs: &[OutputDecl]) -> bool
    ensures { IsTrue result → All (λ o. node_count o.term ≤ 20000) outputs.now }
{
    for output in outputs {
        if nodes(&output.term) > 20000 {
            return false;
        }
    }
    true
}

fn words(alloc: Global, text: &str) -> Result<String, Fail> {
    Ok(String::from_str(alloc, text)?)
}

/// A fault with a path.
fn placed(alloc: Global, code: &str, path: &Path) -> Result<String, Fail> {
    let output = path.output;
    let mut text = format!(in alloc; "{code} {output}")?;
    for step in path.steps.as_slice() {
        text = format!(in alloc; "{text}.{step}")?;
    }
    Ok(text)
}

fn line(alloc: Global, fault: &FinalFault) -> Result<String, Fail> {
    match fault {
        FinalFault::NotLowerable(path) => placed(alloc, "F30", path),
        FinalFault::AccessNotShown(goal) => Ok(format!(in alloc; "F31 {goal}")?),
        FinalFault::DropNotShown(goal) => Ok(format!(in alloc; "F33 {goal}")?),
        FinalFault::IndexTooLarge(index) => Ok(format!(in alloc; "F34 {index}")?),
        FinalFault::ParallelNotGen(path) => placed(alloc, "F35", path),
        FinalFault::LetInParallel(path) => placed(alloc, "F36", path),
        FinalFault::NestedParallel(path) => placed(alloc, "F37", path),
        FinalFault::NoSuchGoal(number) => Ok(format!(in alloc; "F38 {number}")?),
        FinalFault::Memory => words(alloc, "memory"),
    }
}

/// The fault of a sound module, or that it is accepted.
fn told(
    alloc: Global,
    module: &Module,
    finals: &[FinalLine],
    parallel: &[Path],
) -> Result<String, Fail>
    requires { IsSound «module».now }
{
    let outputs = module.outputs.as_slice();
    if module.sizes.len() > MOST || outputs.len() > MOST || outputs.len() == 0 {
        return words(alloc, "large");
    }
    if !are_small(outputs) {
        return words(alloc, "large");
    }
    match judge(alloc, module, finals, parallel) {
        Ok(last) => {
            spent(last);
            words(alloc, "accepted")
        }
        Err(fault) => line(alloc, &fault),
    }
}

/// The same of a module that was read.
fn admitted(
    alloc: Global,
    module: &Module,
    finals: &[FinalLine],
    parallel: &[Path],
) -> Result<String, Fail>
    requires scoped { module_scoped «module».now ≡ true }
    requires example { length «module».now.example ≡ length «module».now.sizes }
{
    if module.sizes.len() > MOST || module.inputs.len() > MOST || module.outputs.len() > MOST {
        return words(alloc, "large");
    }
    match admit(alloc, module) {
        Ok(()) => told(alloc, module, finals, parallel),
        Err(_) => words(alloc, "not admitted"),
    }
}

/// Default lines of these goals.
fn lines(alloc: Global, goals: &[u32]) -> Result<Items<FinalLine>, Fail> {
    let mut lines = Items::new(alloc);
    for goal in goals {
        lines.push(FinalLine {
            goal: *goal,
            lines: Lines::Default,
        })?;
    }
    Ok(lines)
}

/// Marks at these steps of output 0.
fn marks(alloc: Global, all: &[&[u32]]) -> Result<Items<Path>, Fail> {
    let mut marks = Items::new(alloc);
    for steps in all {
        marks.push(Path {
            output: 0,
            steps: Items::from_slice(alloc, *steps)?,
        })?;
    }
    Ok(marks)
}

/// What is told of a source, with default lines of these goals and marks at these steps.
fn judged(alloc: Global, source: &str, goals: &[u32], steps: &[&[u32]]) -> Result<String, Fail> {
    let finals = lines(alloc, goals)?;
    let marks = marks(alloc, steps)?;
    match read_module(alloc, source.as_bytes()) {
        Ok(module) => admitted(alloc, &module, finals.as_slice(), marks.as_slice()),
        Err(_) => words(alloc, "not read"),
    }
}

const SMALL: &str = "atl 1; size N in 1..8; example N = 3; input A[N]; output B = ";

const WIDE: &str =
    "atl 1; size N in 0..1099511627776; size M in 0..1099511627776; example N = 2, M = 2; input A[N][M]; output B = ";

/// What is told of one term after these declarations.
fn answer(
    alloc: Global,
    declared: &str,
    term: &str,
    goals: &[u32],
    steps: &[&[u32]],
) -> Result<String, Fail> {
    let source = format!(in alloc; "{declared}{term};")?;
    judged(alloc, source.as_str(), goals, steps)
}

#[test]
fn reads_and_truncations_are_shown(rt: HostRuntime) -> Result<(), Fail> {
    let alloc = rt.alloc();
    let table: [(&str, &str); 7] = [
        ("gen i < N. A[N - 1 - i]", "accepted"),
        ("gen i < N. A[i / 2]", "accepted"),
        ("gen i < N. A[i + 1]", "F31 2"),
        ("gen i < N. guard i + 1 < N. A[i + 1]", "accepted"),
        ("truncr(1, gen i < N. A[i])", "F33 1"),
        ("transpose(gen i < 2. gen j < 3. 1)", "accepted"),
        ("(gen i < N. A[i])[N]", "F30 0"),
    ];
    for (term, told) in &table {
        assert_eq!(rt; answer(alloc, SMALL, term, &[], &[])?.as_str(), *told);
    }
    Ok(())
}

#[test]
fn printed_indices_are_small(rt: HostRuntime) -> Result<(), Fail> {
    let alloc = rt.alloc();
    let term = "gen i < N. gen j < M. A[i][j]";
    assert_eq!(rt; answer(alloc, WIDE, term, &[], &[])?.as_str(), "F34 1");
    let declared =
        "atl 1; size N in 0..2147483648; size M in 0..1073741824; example N = 2, M = 2; input A[N][M]; output B = ";
    assert_eq!(rt;
        answer(alloc, declared, term, &[], &[])?.as_str(),
        "accepted"
    );
    Ok(())
}

#[test]
fn a_scalar_position_has_no_transpose(rt: HostRuntime) -> Result<(), Fail> {
    let alloc = rt.alloc();
    let source =
        "atl 1; size N in 1..64; size D in 1..64; example N = 2, D = 2; input Q[N][D]; input K[N][D]; input V[N][D]; output O = let s = gen i < N. gen j < N. sum d < D. Q[i][d] * transpose(K)[d][j] in gen i < N. gen e < D. sum j < N. s[i][j] * V[j][e];";
    assert_eq!(rt;
        judged(alloc, source, &[], &[])?.as_str(),
        "F30 0.0.0.0.0.1"
    );
    Ok(())
}

#[test]
fn marks_are_told(rt: HostRuntime) -> Result<(), Fail> {
    let alloc = rt.alloc();
    let sum = "gen i < N. sum j < N. A[j]";
    assert_eq!(rt;
        answer(alloc, SMALL, sum, &[], &[&[0]])?.as_str(),
        "F35 0.0"
    );
    let defined = "gen i < N. let t = A[0] * 2 in t + A[i]";
    assert_eq!(rt;
        answer(alloc, SMALL, defined, &[], &[&[]])?.as_str(),
        "F36 0"
    );
    let nested = "gen i < N. gen j < N. A[j]";
    assert_eq!(rt;
        answer(alloc, SMALL, nested, &[], &[&[], &[0]])?.as_str(),
        "F37 0.0"
    );
    assert_eq!(rt;
        answer(alloc, SMALL, nested, &[], &[&[0]])?.as_str(),
        "accepted"
    );
    Ok(())
}

#[test]
fn faults_have_their_order(rt: HostRuntime) -> Result<(), Fail> {
    let alloc = rt.alloc();
    let outside = "(gen i < N. A[i])[N]";
    assert_eq!(rt; answer(alloc, SMALL, outside, &[9], &[])?.as_str(), "F30 0");
    let access = "gen i < N. A[i + 1]";
    assert_eq!(rt; answer(alloc, SMALL, access, &[9], &[])?.as_str(), "F38 1");
    let wide = "gen i < N. gen j < M. A[i + 1][j]";
    assert_eq!(rt; answer(alloc, WIDE, wide, &[], &[])?.as_str(), "F31 2");
    let large = "gen i < N. gen j < M. A[i][j]";
    assert_eq!(rt;
        answer(alloc, WIDE, large, &[1, 2, 3, 4], &[&[5]])?.as_str(),
        "F34 1"
    );
    Ok(())
}
