use affine_index::Aff;
use final_rules::FinalFault;
use final_rules::form::outside_word;
use final_rules::lines::line_fault;
use final_rules::marks::mark_fault;
use linear_cert::{FinalLine, Lines};
use sqlite_items::{Boxed, Items};
use std::alloc::Global;
use std::test::Fail;
use term_tree::{Module, Name, OutputDecl, Path, Term};

/// A word.
fn one(alloc: Global) -> Result<Boxed<Term>, Fail> {
    let word = Boxed::new(alloc, Term::Lit(1))?;
    Ok(word)
}

/// `gen i < 3.` of a term.
fn rows(alloc: Global, row: Boxed<Term>) -> Result<Boxed<Term>, Fail> {
    let extent = Aff::literal(alloc, 3)?;
    let term = Boxed::new(alloc, Term::Gen(extent, row))?;
    Ok(term)
}

/// `sum i < 3.` of a term.
fn summed(alloc: Global, part: Boxed<Term>) -> Result<Boxed<Term>, Fail> {
    let extent = Aff::literal(alloc, 3)?;
    let term = Boxed::new(alloc, Term::Sum(extent, part))?;
    Ok(term)
}

/// `let t = 1 in t`
fn named(alloc: Global) -> Result<Boxed<Term>, Fail> {
    let word = one(alloc)?;
    let name = Boxed::new(alloc, Term::TVar(0))?;
    let term = Boxed::new(alloc, Term::Let(word, name))?;
    Ok(term)
}

/// A term with the index 0.
fn indexed(alloc: Global, term: Boxed<Term>) -> Result<Boxed<Term>, Fail> {
    let index = Aff::literal(alloc, 0)?;
    let term = Boxed::new(alloc, Term::Index(term, index))?;
    Ok(term)
}

/// A module of one output.
fn module(alloc: Global, term: Boxed<Term>) -> Result<Module, Fail> {
    let name = Name::new(String::from_str(alloc, "B")?);
    let mut outputs = Items::new(alloc);
    outputs.push(OutputDecl {
        name,
        term: term.into_inner(),
    })?;
    Ok(Module {
        version: 1,
        sizes: Items::new(alloc),
        assumes: Items::new(alloc),
        example: Items::new(alloc),
        inputs: Items::new(alloc),
        outputs,
    })
}

/// The path of so many steps to child 0, in output 0.
fn down(alloc: Global, steps: usize) -> Result<Path, Fail> {
    let mut path = Items::new(alloc);
    for _step in 0..steps {
        path.push(0)?;
    }
    Ok(Path {
        output: 0,
        steps: path,
    })
}

/// The code of a fault of a mark, and the depth at which it stands.
fn told(fault: &FinalFault) -> (u32, usize) {
    match fault {
        FinalFault::ParallelNotGen(path) => (35, path.steps.len()),
        FinalFault::LetInParallel(path) => (36, path.steps.len()),
        FinalFault::NestedParallel(path) => (37, path.steps.len()),
        _ => (1, 0),
    }
}

/// The code of the first fault of marks at these depths, and the depth at which it stands.
fn marked(alloc: Global, term: Boxed<Term>, depths: &[usize]) -> Result<(u32, usize), Fail> {
    let module = module(alloc, term)?;
    let mut marks = Items::new(alloc);
    for depth in depths {
        marks.push(down(alloc, *depth)?)?;
    }
    match mark_fault(alloc, &module, marks.as_slice())? {
        None => Ok((0, 0)),
        Some(fault) => Ok(told(&fault)),
    }
}

#[test]
fn marks_stand_at_gens_without_lets_apart(rt: HostRuntime) -> Result<(), Fail> {
    let alloc = rt.alloc();
    let rows_of_sums = rows(alloc, summed(alloc, one(alloc)?)?)?;
    assert!(rt; marked(alloc, rows_of_sums, &[0, 1])? == (35, 1));
    let rows_of_lets = rows(alloc, named(alloc)?)?;
    assert!(rt; marked(alloc, rows_of_lets, &[0])? == (36, 0));
    for (depths, fault) in [([0, 1], (37, 1)), ([1, 0], (37, 0)), ([1, 1], (37, 1))] {
        let nested = rows(alloc, rows(alloc, one(alloc)?)?)?;
        assert!(rt; marked(alloc, nested, &depths)? == fault);
    }
    let nested = rows(alloc, rows(alloc, one(alloc)?)?)?;
    assert!(rt; marked(alloc, nested, &[1])? == (0, 0));
    let nested = rows(alloc, rows(alloc, one(alloc)?)?)?;
    assert!(rt; marked(alloc, nested, &[3])? == (35, 3));
    Ok(())
}

/// The number of a line without a goal.
fn line_of(fault: &FinalFault) -> Option<u64> {
    match fault {
        FinalFault::NoSuchGoal(number) => Some(*number),
        _ => None,
    }
}

/// The number of the first line without a goal, of lines for these of two goals.
fn unknown(alloc: Global, goals: &[u32]) -> Result<Option<u64>, Fail> {
    let mut lines = Items::new(alloc);
    for goal in goals {
        lines.push(FinalLine {
            goal: *goal,
            lines: Lines::Default,
        })?;
    }
    match line_fault(2, lines.as_slice()) {
        None => Ok(None),
        Some(fault) => Ok(line_of(&fault)),
    }
}

#[test]
fn final_lines_name_goals_in_order(rt: HostRuntime) -> Result<(), Fail> {
    let alloc = rt.alloc();
    assert!(rt; unknown(alloc, &[9])? == Some(1));
    assert!(rt; unknown(alloc, &[1, 1])? == Some(2));
    assert!(rt; unknown(alloc, &[0])? == Some(1));
    assert!(rt; unknown(alloc, &[1, 2])?.is_none());
    Ok(())
}

/// The steps to the first node of a word that is outside the form.
fn left(alloc: Global, term: &Term, steps: &[u32]) -> Result<bool, Fail> {
    Ok(match outside_word(alloc, term)? {
        Some(node) => node.as_slice() == steps,
        None => false,
    })
}

#[test]
fn words_read_tensors_alone(rt: HostRuntime) -> Result<(), Fail> {
    let alloc = rt.alloc();
    let tensor = Boxed::new(alloc, Term::TVar(0))?;
    let turned = Boxed::new(alloc, Term::Transpose(tensor))?;
    let entry = indexed(alloc, indexed(alloc, turned)?)?;
    let product = Boxed::new(alloc, Term::Mul(one(alloc)?, entry))?;
    assert!(rt; left(alloc, product.get(), &[1])?);
    let tensor = Boxed::new(alloc, Term::TVar(0))?;
    let entry = indexed(alloc, indexed(alloc, tensor)?)?;
    assert!(rt; outside_word(alloc, entry.get())?.is_none());
    Ok(())
}
