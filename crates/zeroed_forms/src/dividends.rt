//! Items of a normal form as a form.
#![tactic(auto, using(fact_list::proofs::AtomLaws::item_laws))]

ghost use Rattle.std.specs.Prelude.{true, ◌≡◌, IfOk};
ghost use Rattle.affine_index.specs.Normal.{is_normal, none_zero};

use affine_index::Aff;
use affine_index::raw::{Wide, copy_atom, multiple, within_limits};
use fact_list::{CertRefusal, number};
use std::alloc::Global;

fn widened(alloc: Global, items: &affine_index::Items) -> Result<Wide, CertRefusal>
    requires { none_zero items.now.terms ≡ true }
    ensures { IfOk result (λ form. form ≡ items.now) }
{
    let mut terms = number(alloc, 0)?.into_terms();
    for term in items.terms.as_slice() {
        let atom = copy_atom(alloc, &term.atom)?;
        let item = multiple(alloc, i128::from(term.coefficient), atom)?;
        terms.append(item.into_terms())?;
    }
    Ok(Wide::new(terms, i128::from(items.constant)))
}

/// Items of a normal form as a form.
pub fn formed(alloc: Global, items: &affine_index::Items) -> Result<Aff, CertRefusal>
    requires { is_normal items.now ≡ true }
    ensures { IfOk result (λ form. form ≡ items.now) }
{
    match within_limits(alloc, widened(alloc, items)?) {
        Ok(form) => Ok(form),
        Err(_) => Err(CertRefusal::Memory),
    }
}
