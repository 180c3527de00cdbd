//! The facts of a module.

ghost use Rattle.std.specs.Prelude.{◌≡◌, map, IfOk};
ghost use Rattle.shape_rules.specs.Admitted.{module_facts};

use affine_index::Cmp;
use fact_list::{Facts, SizeBounds, copy_cmps};
use sqlite_items::Items;
use std::alloc::{AllocError, Global};
use term_tree::{Module, SizeDecl};

/// The bounds of each declared size, in order.
fn bounds(alloc: Global, declared: &[SizeDecl]) -> Result<Items<SizeBounds>, AllocError>
    ensures { IfOk result (λ bounds. bounds ≡ map (λ d. record { low = d.low; high = d.high }) declared.now) }
{
    let mut bounds = Items::new(alloc);
    for size in declared {
        bounds.push(SizeBounds {
            low: size.low,
            high: size.high,
        })?;
    }
    Ok(bounds)
}

/// Equal comparisons.
fn assumed(alloc: Global, cmps: &[Cmp]) -> Result<Items<Cmp>, AllocError>
    ensures { IfOk result (λ copies. copies ≡ cmps.now) }
{
    match copy_cmps(alloc, cmps) {
        Ok(copies) => Ok(copies),
        Err(_) => Err(AllocError),
    }
}

/// The declared bounds and the assumes, which hold outside all gens, sums and guards.
pub fn module_facts(alloc: Global, module: &Module) -> Result<Facts, AllocError>
    ensures { IfOk result (λ facts. facts ≡ module_facts «module».now) }
{
    let sizes = bounds(alloc, module.sizes.as_slice())?;
    let assumes = assumed(alloc, module.assumes.as_slice())?;
    Ok(Facts {
        sizes,
        assumes,
        path: Items::new(alloc),
    })
}
