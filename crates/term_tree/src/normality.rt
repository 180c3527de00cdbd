//! What every term has: its forms are normal.

ghost use Rattle.std.specs.Prelude.{◌≡◌, true};
ghost use Rattle.affine_index.specs.Normal.{is_normal};
ghost use Rattle.affine_index.specs.Condition.{cmp_form};
ghost use Rattle.term_tree.specs.Limits.{each_cmp, every_form};

use crate::term::Term;
use affine_index::{Cmp, Cond};

fn cmp_told(cmp: &Cmp)
    ensures { is_normal (cmp_form cmp.now) ≡ true }
{
    match cmp {
        Cmp::Ge(x) | Cmp::Eq(x) => x.told(),
    }
}

fn cond_told(cond: &Cond)
    ensures { each_cmp is_normal cond.now.all ≡ true }
{
    for cmp in cond.all.as_slice() {
        cmp_told(cmp);
    }
}

/// Tells a proof that each form in the term is normal.
pub fn told(term: &Term)
    ensures { every_form is_normal term.now ≡ true }
{
    match term {
        Term::Lit(_) | Term::TVar(_) => {}
        Term::WordOf(x) => x.told(),
        Term::Flatten(e) | Term::Transpose(e) | Term::Split(_, e) => told(e.get()),
        Term::Index(e, x)
        | Term::Gen(x, e)
        | Term::Sum(x, e)
        | Term::TruncL(x, e)
        | Term::TruncR(x, e)
        | Term::PadL(x, e)
        | Term::PadR(x, e) => {
            x.told();
            told(e.get());
        }
        Term::Guard(c, e) => {
            cond_told(c);
            told(e.get());
        }
        Term::Let(a, b)
        | Term::Add(a, b)
        | Term::Sub(a, b)
        | Term::Mul(a, b)
        | Term::Concat(a, b) => {
            told(a.get());
            told(b.get());
        }
    }
}
