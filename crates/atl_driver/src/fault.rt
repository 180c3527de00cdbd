// A fault of a text, with the fields that say where.
ghost use Rattle.std.specs.Prelude.{◌≡◌};

use loop_lang::Buf;
use std::marker::Model;
use term_tree::Path;

/// A field of a fault: places in a text count from 0, and so do outputs, inputs and the children of a path.
/// Goals, conditions, constraints, steps, final lines and printed indices count from 1.
#[derive(Drop)]
pub enum FaultField {
    At(u64),
    Path(Path),
    Input(u32),
    Step(u64),
    Condition(u64),
    Goal(u64),
    Constraint(u64),
    Index(u64),
    Final(u64),
    Nodes(u64),
    Words(u64),
    Steps(u64),
    Actions(u64),
    Want(u64),
    Got(u64),
    /// A place outside a buffer.
    Outside(Buf, i64),
    Overflow,
    Negative,
}

/// The fields of a fault, in order.
#[derive(Drop)]
pub struct Fields {
    fields: Vec<FaultField>,
}

impl Model for Fields {
    ghost use Rattle.std.specs.Prelude.{List};
    ghost use Rattle.atl_driver.specs.declared.fault.FaultField.{FaultField};

    ghost Value = { List FaultField };

    ghost view = { λ fields. fields.fields.items };
}

impl Fields {
    pub fn new(fields: Vec<FaultField>) -> Fields
        ensures { result ≡ fields.items }
    {
        Fields { fields }
    }

    pub fn as_slice(&self) -> &[FaultField]
        ensures { result.now ≡ self.now }
    {
        self.fields.as_slice()
    }
}

/// Why a text is refused: the number of the rule that it breaks, and where.
#[derive(Drop)]
pub struct Fault {
    pub number: u8,
    pub fields: Fields,
}
