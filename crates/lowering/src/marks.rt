//! Marked gens, by the numbers of the children on the way to them.

ghost use Rattle.std.specs.Prelude.{◌≡◌, ◌++◌, ◌∷◌, [], IfOk, OnOk};
ghost use Rattle.lowering_laws.specs.Marks.{is_marked, output_marks, through_child};

use sqlite_items::Items;
use std::alloc::{AllocError, Global};
use term_tree::Path;

/// Adds what is left of a way, if it leads through the child.
fn push_through(
    alloc: Global,
    marks: &mut Items<Items<u32>>,
    child: u32,
    steps: &[u32],
) -> Result<(), AllocError>
    ensures { OnOk result (marks.new ≡ marks.old ++ through_child child (steps.now ∷ [])) }
{
    match steps {
        [] => Ok(()),
        [first, rest @ ..] => {
            if *first == child {
                let rest = Items::from_slice(alloc, rest)?;
                marks.push(rest)
            } else {
                Ok(())
            }
        }
    }
}

/// The ways that lead through the child, seen from there.
pub fn through_child(
    alloc: Global,
    child: u32,
    marks: &[Items<u32>],
) -> Result<Items<Items<u32>>, AllocError>
    ensures { IfOk result (λ ms. ms ≡ through_child child marks.now) }
{
    let mut inner = Items::new(alloc);
    for steps in marks {
        push_through(alloc, &mut inner, child, steps.as_slice())?;
    }
    Ok(inner)
}

/// Whether one of the ways ends here.
pub fn is_marked(marks: &[Items<u32>]) -> bool
    ensures { result ≡ is_marked marks.now }
{
    for steps in marks {
        if steps.is_empty() {
            return true;
        }
    }
    false
}

/// Adds a path, if it is one of the output.
fn push_output(
    alloc: Global,
    marks: &mut Items<Items<u32>>,
    output: u32,
    path: &Path,
) -> Result<(), AllocError>
    ensures { OnOk result (marks.new ≡ marks.old ++ output_marks output (path.now ∷ [])) }
{
    if path.output == output {
        let steps = Items::from_slice(alloc, path.steps.as_slice())?;
        marks.push(steps)
    } else {
        Ok(())
    }
}

/// The ways from the term of an output.
pub fn output_marks(
    alloc: Global,
    output: u32,
    paths: &[Path],
) -> Result<Items<Items<u32>>, AllocError>
    ensures { IfOk result (λ ms. ms ≡ output_marks output paths.now) }
{
    let mut marks = Items::new(alloc);
    for path in paths {
        push_output(alloc, &mut marks, output, path)?;
    }
    Ok(marks)
}
