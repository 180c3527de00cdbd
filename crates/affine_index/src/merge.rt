//! Sums of lists of items in order.
#![tactic(auto, using(crate::proofs::MergeLaws::merge_laws))]

ghost use Rattle.std.specs.Prelude.{◌≡◌, ◌+◌, ◌^◌, ◌<◌, ◌≤◌, [], ◌++◌, length, IfOk, Some};
ghost use Rattle.std.specs.Int.RustNames.{unsigned_abs};
ghost use Rattle.std.specs.Option.{option_to_list};
ghost use Rattle.affine_index.specs.Sum.{combined, merged};
ghost use Rattle.affine_index.specs.Wide.{first_order, terms_norm};

use crate::order::order_atoms;
use crate::wide::{WideItem, WideTerms};
use std::alloc::{AllocError, Global};
use std::cmp::Ordering;

/// The order of the atoms of the first items, where there are both.
fn first_order(a: &WideTerms, b: &WideTerms) -> Option<Ordering>
    ensures { result ≡ first_order a.now b.now }
{
    match (a.first(), b.first()) {
        (Some(x), Some(y)) => Some(order_atoms(x.atom(), y.atom())),
        _ => None,
    }
}

/// Two items of one atom as one, or none where they cancel.
fn combined(a: WideItem, b: WideItem) -> Option<WideItem>
    requires { unsigned_abs a.coefficient + unsigned_abs b.coefficient < 2 ^ 127 }
    ensures { option_to_list result ≡ combined a b [] }
{
    let coefficient = a.coefficient() + b.coefficient();
    if coefficient == 0 {
        return None;
    }
    Some(WideItem::new(a.into_atom(), coefficient))
}

/// Takes the lesser of the first items, or both where they are of one atom.
fn take_lesser(order: Ordering, a: &mut WideTerms, b: &mut WideTerms) -> Option<WideItem>
    requires first { first_order a.old b.old ≡ Some order }
    requires room { terms_norm a.old + terms_norm b.old < 2 ^ 127 }
    ensures merged { merged a.old b.old ≡ option_to_list result ++ merged a.new b.new }
    ensures shorter { length a.new + length b.new < length a.old + length b.old }
    ensures norm { terms_norm a.new + terms_norm b.new ≤ terms_norm a.old + terms_norm b.old }
{
    match order {
        Ordering::Less => a.take_first(),
        Ordering::Greater => b.take_first(),
        Ordering::Equal => {
            let (Some(x), Some(y)) = (a.take_first(), b.take_first()) else {
                return None;
            };
            combined(x, y)
        }
    }
}

/// Both lists in order, with the coefficients of equal atoms added. Moves the items: linear in their number.
pub fn merge(alloc: Global, a: WideTerms, b: WideTerms) -> Result<WideTerms, AllocError>
    requires { terms_norm a + terms_norm b < 2 ^ 127 }
    ensures { IfOk result (λ items. items ≡ merged a b) }
{
    let mut a = a;
    let mut b = b;
    let mut items = WideTerms::new(alloc);
    while let Some(order) = first_order(&a, &b) {
        if let Some(item) = take_lesser(order, &mut a, &mut b) {
            items.push(item)?;
        }
    }
    items.append(a)?;
    items.append(b)?;
    Ok(items)
}
