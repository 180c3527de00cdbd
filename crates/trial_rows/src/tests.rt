use given_text::PrintFault;
use std::alloc::Global;
use trial_text::{trial_given, trial_line, trial_script, trial_source};

const HEAD: &[u8] =
    b"atl 1;\nsize N in 1..100000;\nexample N = 1000;\ninput A[N];\ninput W[3];\noutput B =\n";

const FIRST: &[u8] = b"  let x1 = gen i < N. sum j < 3. (guard i + j < N. A[i + j]) * W[j] in\n";

const SECOND: &[u8] = b"  let x2 = gen i < N. sum j < 3. (guard i + j < N. x1[i + j]) * W[j] in\n";

/// Whether a text was written, and is these parts.
fn is(text: Result<Vec<u8>, PrintFault>, parts: &[&[u8]]) -> bool {
    let Ok(text) = text else { return false };
    let mut rest = text.as_slice();
    for part in parts {
        let Some(next) = rest.strip_prefix(*part) else {
            return false;
        };
        rest = next;
    }
    rest.is_empty()
}

#[test]
fn sources_of_one_and_two_steps(rt: HostRuntime) {
    let alloc = rt.alloc();
    assert!(rt;
        is(
            trial_source(alloc, 1),
            &[HEAD, FIRST, b"  gen i < N. x1[i] * x1[i];\n"]
        )
    );
    assert!(rt;
        is(
            trial_source(alloc, 2),
            &[HEAD, FIRST, SECOND, b"  gen i < N. x2[i] * x2[i];\n"],
        )
    );
}

#[test]
fn scripts_of_one_and_three_steps(rt: HostRuntime) {
    let alloc = rt.alloc();
    assert!(rt;
        is(
            trial_script(alloc, 1),
            &[b"schedule 1;\nat 0.0 do split_gen(8);\n"]
        )
    );
    assert!(rt;
        is(
            trial_script(alloc, 3),
            &[
                b"schedule 1;\nat 0.0 do split_gen(8);\n",
                b"at 0.1.0 do split_gen(8);\nat 0.1.1.0 do split_gen(8);\n",
            ],
        )
    );
}

/// The first two words of A, and the last of A with those of W, were computed by another program.
#[test]
fn what_a_run_is_given(rt: HostRuntime) {
    let Ok(text) = trial_given(rt.alloc()) else {
        assert!(rt; false);
        return;
    };
    assert!(rt; text.starts_with(b"N: 1000;\nA: 7806831264735756412 9396908728118811419 "));
    assert!(rt;
        text.ends_with(
            b" 17660865281050590889;\nW: 610409228822633476 10793592552357571075 6576790824961204438;\n",
        )
    );
    assert!(rt; text.iter().filter(|byte| **byte == b' ').count() == 1004);
}

#[test]
fn the_line(rt: HostRuntime) {
    assert!(rt;
        is(
            trial_line(rt.alloc(), 8, 110, 2345, 34000, 18446744073709551615),
            &[b"trial 8 nodes 110 steps 8 bytes 2345 stores 34000 sum 18446744073709551615\n"],
        )
    );
}
