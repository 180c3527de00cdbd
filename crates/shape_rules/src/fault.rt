//! Why a term has no shape.

ghost use Rattle.std.specs.Prelude.{◌≡◌, [], reverse, IfErr, IfOk, Ok};
ghost use Rattle.shape_rules.specs.Faults.{IsAnswer, IsFault, IsTrouble, misfit_at};
ghost use Rattle.term_tree.specs.Shape.{Extents, Shaped, with_child};

use affine_index::Aff;
use sqlite_items::Items;
use std::alloc::{AllocError, Global};
use term_tree::{Cause, Path};

/// The first input of a rank over 8; the first node, children before their parent and in order, at which a shape rule
/// fails, an extent breaks a limit or the rank is over 8; or want of memory.
#[derive(Drop)]
pub enum ShapeFault {
    InputRank(u32),
    /// The operands have not the rank that the operator asks for, or not one rank.
    RankMismatch(Path),
    /// Extents that must be equal are different forms.
    ShapesDiffer(Path),
    RankTooLarge(Path),
    CoefficientTooLarge(Path),
    IndexTooLong(Path),
    Memory,
}

impl From<AllocError> for ShapeFault {
    ghost use Rattle.shape_rules.specs.declared.fault.ShapeFault.TheVariants.{Memory};

    ghost from_gives = { λ _ e. e ≡ Memory };

    fn from(_e: AllocError) -> ShapeFault {
        ShapeFault::Memory
    }
}

/// Why a walk ends: the cause, with the numbers of the children from its node upward, or want of memory.
#[derive(Drop)]
pub enum Trouble {
    Misfit(Cause, Items<u32>),
    Memory,
}

impl From<AllocError> for Trouble {
    ghost use Rattle.shape_rules.specs.declared.fault.Trouble.TheVariants.{Memory};

    ghost from_gives = { λ _ e. e ≡ Memory };

    fn from(_e: AllocError) -> Trouble {
        Trouble::Memory
    }
}

/// The shapes of two operands.
#[derive(Drop)]
pub struct Operands {
    pub first: Items<Aff>,
    pub second: Items<Aff>,
}

/// A cause at the node itself.
pub fn here(alloc: Global, cause: Cause) -> Trouble
    ensures { result ≡ Trouble.Misfit cause [] }
{
    Trouble::Misfit(cause, Items::new(alloc))
}

/// What a child answers, seen from its parent.
pub fn under(number: u32, child: Result<Items<Aff>, Trouble>) -> Result<Items<Aff>, Trouble>
    ensures ok { IfOk result (λ ns. child ≡ Ok ns) }
    ensures err { IfErr result (λ t. (shape : Shaped) (rule : Extents → Shaped) → IsAnswer shape child → IsTrouble (with_child number shape rule) t) }
{
    match child {
        Ok(ns) => Ok(ns),
        Err(Trouble::Memory) => Err(Trouble::Memory),
        Err(Trouble::Misfit(cause, steps)) => {
            let mut steps = steps;
            steps.push(number)?;
            Err(Trouble::Misfit(cause, steps))
        }
    }
}

/// The numbers from the last to the first.
fn reversed(alloc: Global, numbers: Items<u32>) -> Result<Items<u32>, AllocError>
    ensures { IfOk result (λ r. r ≡ reverse numbers) }
{
    let mut rest = numbers;
    let mut turned = Items::new(alloc);
    while let Some(number) = rest.pop() {
        turned.push(number)?;
    }
    Ok(turned)
}

fn at(cause: Cause, path: Path) -> ShapeFault
    ensures { IsFault path.output (misfit_at path cause) result }
{
    match cause {
        Cause::RankMismatch => ShapeFault::RankMismatch(path),
        Cause::ShapesDiffer => ShapeFault::ShapesDiffer(path),
        Cause::RankTooLarge => ShapeFault::RankTooLarge(path),
        Cause::CoefficientTooLarge => ShapeFault::CoefficientTooLarge(path),
        Cause::IndexTooLong => ShapeFault::IndexTooLong(path),
    }
}

/// The fault of an output whose walk ended in trouble.
pub fn fault(alloc: Global, output: u32, trouble: Trouble) -> ShapeFault
    ensures { (shape : Shaped) → IsTrouble shape trouble → IsFault output shape result }
{
    match trouble {
        Trouble::Memory => ShapeFault::Memory,
        Trouble::Misfit(cause, steps) => match reversed(alloc, steps) {
            Ok(steps) => at(cause, Path { output, steps }),
            Err(_) => ShapeFault::Memory,
        },
    }
}
