// From a module that was read, and the text of a script, to what is made of both.
ghost use Rattle.std.specs.Prelude.{◌≡◌, ◌≢◌, ◌≤◌, [], length, true, IfErr, IfOk, IfSome, IsErrOf, option_copied};
ghost use Rattle.atl_printer.specs.PrintableModule.{IsPrintableModule};
ghost use Rattle.schedule_run.specs.Versions.{MayRun};
ghost use Rattle.schedule_script.specs.Script.{Answers as Reads};
ghost use Rattle.source_grammar.specs.Source.{AreShallow, nodes};
ghost use Rattle.term_tree.specs.Modules.{module_scoped};
ghost use Rattle.atl_driver.specs.Asked.{IsShort, asked_for};
ghost use Rattle.atl_driver.specs.Compile.{Answers, module_compiled, scheduled_as, script_fault_of, script_of};
ghost use Rattle.atl_driver.specs.Correct.{IsAdmitted, IsRefusedModule, IsRefusedScript, IsTextUnder, IsScriptOf, IsUnscripted};
ghost use Rattle.atl_driver.specs.declared.fault.Fault.{Fault as FaultValue};

use crate::compile::CompileRefusal;
use crate::emit::{Emit, emitted};
use crate::faults::{unadmitted, unscripted};
use admission::admit;
use owned_values::spent;
use schedule_script::{Script, ScriptFault, read_script};
use sqlite_items::Items;
use std::alloc::Global;
use term_tree::Module;

/// The schedule of a text; that without steps where there is none.
fn read_schedule(alloc: Global, script: Option<&[u8]>) -> Result<Script, ScriptFault>
    requires { IfSome (option_copied script) (λ text. length text ≤ 2147483647) }
    ensures exact { Reads result (script_of (option_copied script.entry)) }
    ensures reads { IfOk result (λ schedule. IsScriptOf (option_copied script.entry) schedule) }
    ensures refused { IfErr result (λ fault. fault ≢ ScriptFault.Memory → IsUnscripted (option_copied script.entry) (script_fault_of fault)) }
{
    match script {
        Some(text) => read_script(alloc, text),
        None => Ok(Script {
            steps: Items::new(alloc),
            finals: Items::new(alloc),
            parallel: Items::new(alloc),
        }),
    }
}

/// The text of a sound module under the text of a script, or its first fault.
fn scheduled_text(
    alloc: Global,
    emit: Emit<'_>,
    origin: Module,
    script: Option<&[u8]>,
) -> Result<Vec<u8>, CompileRefusal>
    requires may { MayRun origin }
    requires some { origin.outputs ≢ [] }
    requires shallow { AreShallow origin.outputs }
    requires outputs { length origin.outputs ≤ 2147483647 }
    requires printable { IsPrintableModule origin }
    requires script { IfSome (option_copied script) (λ text. length text ≤ 2147483647) }
    requires given { IsShort (asked_for emit) }
    ensures answers { Answers (scheduled_as (asked_for emit.entry) (script_of (option_copied script.entry)) origin) result }
    ensures under { IfOk result (λ text. IsTextUnder (asked_for emit.entry) origin (option_copied script.entry) text.items) }
    ensures refused { (fault : FaultValue) → IsErrOf result (CompileRefusal.Refused fault) → IsRefusedScript (asked_for emit.entry) origin (option_copied script.entry) fault }
{
    match read_schedule(alloc, script) {
        Ok(schedule) => {
            let text = emitted(alloc, emit, origin, &schedule);
            spent(schedule);
            text
        }
        Err(fault) => {
            spent(origin);
            Err(unscripted(alloc, fault))
        }
    }
}

/// The text of a module that was read, under the text of a script, or its first fault.
pub fn module_text(
    alloc: Global,
    emit: Emit<'_>,
    origin: Module,
    script: Option<&[u8]>,
) -> Result<Vec<u8>, CompileRefusal>
    requires scoped { module_scoped origin ≡ true }
    requires some { origin.outputs ≢ [] }
    requires few { nodes origin.outputs ≤ 20000 }
    requires shallow { AreShallow origin.outputs }
    requires sizes { length origin.sizes ≤ 2147483647 }
    requires inputs { length origin.inputs ≤ 2147483647 }
    requires outputs { length origin.outputs ≤ 2147483647 }
    requires example { length origin.example ≡ length origin.sizes }
    requires printable { IsPrintableModule origin }
    requires script { IfSome (option_copied script) (λ text. length text ≤ 2147483647) }
    requires given { IsShort (asked_for emit) }
    ensures answers { Answers (module_compiled (asked_for emit.entry) origin (option_copied script.entry)) result }
    ensures under { IfOk result (λ text. IsAdmitted origin × IsTextUnder (asked_for emit.entry) origin (option_copied script.entry) text.items) }
    ensures refused { (fault : FaultValue) → IsErrOf result (CompileRefusal.Refused fault) → IsRefusedModule (asked_for emit.entry) origin (option_copied script.entry) fault }
{
    match admit(alloc, &origin) {
        Ok(()) => scheduled_text(alloc, emit, origin, script),
        Err(fault) => {
            spent(origin);
            Err(unadmitted(alloc, fault))
        }
    }
}
