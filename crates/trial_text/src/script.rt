//! The script of a trial.

ghost use Rattle.std.specs.Prelude.{◌≡◌, ◌++◌, ◌≤◌, IfOk, MatchResult, OnOk, length};
ghost use Rattle.given_text.specs.declared.fault.PrintFault.TheVariants.{Memory};
ghost use Rattle.trial_text.specs.TrialText.{bodies_text, step_text, steps_text, trial_script};

use crate::put::put;
use given_text::PrintFault;
use std::alloc::Global;

fn put_bodies(text: &mut Vec<u8>, bodies: u64) -> Result<(), PrintFault>
    ensures { OnOk result (text.new.items ≡ text.old.items ++ bodies_text bodies) }
{
    for body in 0..bodies {
        put(text, b".1")?;
    }
    Ok(())
}

fn put_step(text: &mut Vec<u8>, number: u64) -> Result<(), PrintFault>
    ensures { OnOk result (text.new.items ≡ text.old.items ++ step_text number) }
{
    put(text, b"at 0")?;
    put_bodies(text, number)?;
    put(text, b".0 do split_gen(8);\n")
}

fn put_steps(text: &mut Vec<u8>, steps: u64) -> Result<(), PrintFault>
    ensures { OnOk result (text.new.items ≡ text.old.items ++ steps_text steps) }
{
    for number in 0..steps {
        put_step(text, number)?;
    }
    Ok(())
}

#[tactic(auto, unfolding(crate::specs::TrialText::trial_script))]
fn put_script(text: &mut Vec<u8>, steps: u64) -> Result<(), PrintFault>
    ensures { OnOk result (text.new.items ≡ text.old.items ++ trial_script steps) }
{
    put(text, b"schedule 1;\n")?;
    put_steps(text, steps)
}

/// The script of the trial of so many steps. Time is linear in the text.
pub fn trial_script(alloc: Global, steps: u64) -> Result<Vec<u8>, PrintFault>
    ensures exact { MatchResult result (λ text. text.items ≡ trial_script steps) (λ fault. fault ≡ Memory) }
    // A file could hold it.
    ensures short { steps ≤ 16 → IfOk result (λ text. length text.items ≤ 1048576) }
{
    let mut text = Vec::new(alloc);
    match put_script(&mut text, steps) {
        Ok(()) => Ok(text),
        Err(fault) => Err(fault),
    }
}
