//! C texts as loop programs.

ghost use Rattle.std.specs.Prelude.{IfOk, MatchResult};
ghost use Rattle.loop_lang.specs.Form.{IsWellFormed};
ghost use Rattle.c_text.specs.Statement.{CText};
ghost use Rattle.c_reader.specs.Fault.{IsFault, IsOfNoOther, IsToldBy};

use crate::fault::CFault;
use crate::unit::whole;
use c_words::CWords;
use loop_lang::Prog;
use reader_laws::ReadError;
use std::alloc::Global;

#[tactic(auto, unfolding(c_read::specs::Units::read_text), using(crate::proofs::Whole::whole_is))]
fn told(alloc: Global, text: &[u8]) -> Result<Prog, CFault>
    ensures { MatchResult result (λ p. CText text.now p) (λ f. IsToldBy text.now f) }
{
    c_read::laws::text_reader_is_exact(text);
    let mut words = CWords::new(text);
    match whole(alloc, &mut words) {
        Ok(program) => Ok(program.into_inner()),
        Err(ReadError::Memory) => Err(CFault::Memory),
        Err(ReadError::Refused(_, at)) => Err(CFault::BadC { at }),
    }
}

/// The program that a C text stands for, in time linear in its length.
pub fn read_c(alloc: Global, text: &[u8]) -> Result<Prog, CFault>
    ensures value { MatchResult result (λ p. CText text.now p) (λ f. IsFault text.now f) }
    ensures alone { IfOk result (λ p. IsOfNoOther text.now p) }
    ensures formed { IfOk result (λ p. IsWellFormed p) }
{
    c_read::laws::text_reader_is_exact(text);
    c_first_fault::laws::faults_are_first(text);
    told(alloc, text)
}
