//! Sources, given texts, and what is told or refused.

ghost use Rattle.std.specs.Prelude.{◌≡◌, ◌≤◌, length, true};
ghost use Rattle.term_tree.specs.Modules.{module_scoped};

use admission::admit;
use atl_reader::read_module;
use owned_values::spent;
use plain_run::{PlainFault, run_plain};
use std::alloc::Global;
use term_tree::Module;

/// What the module, where it is admitted, tells of the given text.
fn answer(alloc: Global, module: &Module, given: &[u8]) -> Result<Vec<u8>, PlainFault>
    requires scoped { module_scoped «module».now ≡ true }
    requires sizes { length «module».now.sizes ≤ 2147483647 }
    requires inputs { length «module».now.inputs ≤ 2147483647 }
    requires outputs { length «module».now.outputs ≤ 2147483647 }
    requires example { length «module».now.example ≡ length «module».now.sizes }
    requires given { length given.now ≤ 2147483647 }
{
    match admit(alloc, module) {
        Ok(()) => run_plain(alloc, module, given),
        Err(_) => Err(PlainFault::Memory),
    }
}

/// What the source, where it is read, tells of the given text.
fn told(alloc: Global, source: &[u8], given: &[u8]) -> Result<Vec<u8>, PlainFault> {
    if source.len() > 1_048_576 || given.len() > 1_048_576 {
        return Err(PlainFault::Memory);
    }
    match read_module(alloc, source) {
        Ok(module) => {
            let told = answer(alloc, &module, given);
            spent(module);
            told
        }
        Err(_) => Err(PlainFault::Memory),
    }
}

fn tells(alloc: Global, source: &[u8], given: &[u8], text: &[u8]) -> bool {
    match told(alloc, source, given) {
        Ok(told) => told.as_slice() == text,
        Err(_) => false,
    }
}

fn refuses(alloc: Global, source: &[u8], given: &[u8], due: PlainFault) -> bool {
    match told(alloc, source, given) {
        Ok(_) => false,
        Err(fault) => fault == due,
    }
}

#[test]
fn lines_of_outputs(rt: HostRuntime) {
    let rows: [(&[u8], &[u8], &[u8]); 4] = [
        (
            b"atl 1; size N in 0..8; example N = 3; input A[N]; output B = gen i < N. A[i] * 2;",
            b"N: 3; A: 1 2 3;",
            b"B: 2 4 6;\n",
        ),
        (
            b"atl 1; size N in 0..8; example N = 3; input A[N]; output B = gen i < N. A[i] * 2;",
            b"N: 0; A:;",
            b"B:;\n",
        ),
        (
            b"atl 2; size N in 0..8; size M in 0..8; example N = 3, M = 1; input A[N][2]; input E[M][0]; output B = transpose(A); output C = sum i < N. A[i][1];",
            b"N: 3; M: 7; A: 1 2 3 4 5 6; E:;",
            b"B: 1 3 5 2 4 6;\nC: 12;\n",
        ),
        (
            b"atl 1; size N in 0..1048576; example N = 3; output B = sum i < N. (gen j < N. 7)[i];",
            b"N: 5;",
            b"B: 35;\n",
        ),
    ];
    for (source, given, text) in &rows {
        assert!(rt; tells(rt.alloc(), *source, *given, *text));
    }
}

#[test]
fn first_faults(rt: HostRuntime) {
    let vector =
        b"atl 1; size N in 0..8; example N = 3; input A[N]; output B = gen i < N. A[i] * 2;";
    let empty =
        b"atl 1; size N in 0..1099511627776; example N = 3; input A[N][0]; input B[2]; output C = B;";
    let rows: [(&[u8], &[u8], PlainFault); 6] = [
        (vector, b"N: 3; A: 1 2 x;", PlainFault::BadData { at: 13 }),
        (
            vector,
            b"N: 9; A:;",
            PlainFault::SizesNotAllowed { constraint: 1 },
        ),
        (
            vector,
            b"N: 3; A: 1 2;",
            PlainFault::WrongCount {
                input: 0,
                want: 3,
                got: 2,
            },
        ),
        // An input with no words, and too many rows.
        (
            empty,
            b"N: 1099511627776; A:; B: 1;",
            PlainFault::TooBigToRun {
                words: 1_099_511_627_776,
            },
        ),
        (
            empty,
            b"N: 5; A: 1; B: 1;",
            PlainFault::WrongCount {
                input: 0,
                want: 0,
                got: 1,
            },
        ),
        // A subterm is too big before an input has a wrong number of words.
        (
            b"atl 1; size N in 0..8; example N = 3; input A[N]; output B = sum i < 20000. sum j < 20000. (gen k < 20000 * 20000. A[0])[i];",
            b"N: 3; A:;",
            PlainFault::TooBigToRun { words: 400_000_000 },
        ),
    ];
    for (source, given, fault) in &rows {
        assert!(rt; refuses(rt.alloc(), *source, *given, *fault));
    }
}
