//! The operators of an index.

ghost use Rattle.std.specs.Prelude.{◌≡◌, IfSome};
ghost use Rattle.source_grammar.specs.Index.{IsSign};
ghost use Rattle.source_grammar.specs.Index as spec;

use text_tokens::Kind;

#[derive(Clone, Copy, Debug, PartialEq, Eq)]
pub enum Operator {
    Plus,
    Minus,
    Times,
    Over,
    Modulo,
}

pub fn sum_operator(kind: Kind) -> Option<Operator>
    ensures value { result ≡ spec.sum_operator kind }
    ensures sign { IfSome result (λ o. IsSign o) }
{
    match kind {
        Kind::Plus => Some(Operator::Plus),
        Kind::Minus => Some(Operator::Minus),
        _ => None,
    }
}

pub fn product_operator(kind: Kind) -> Option<Operator>
    ensures { result ≡ spec.product_operator kind }
{
    match kind {
        Kind::Star => Some(Operator::Times),
        Kind::Slash => Some(Operator::Over),
        Kind::Percent => Some(Operator::Modulo),
        _ => None,
    }
}
