use affine_index::Rel;
use linear_cert::Lines;
use schedule_script::{ArgTree, Comparison, IxTree, Script, ScriptFault, read_script};
use script_printer::print_script;
use std::alloc::Global;
use std::process::Abort;
use std::test::Fail;

/// A text that is read again and again, between two others.
fn repeated(
    alloc: Global,
    front: &str,
    text: &str,
    times: usize,
    back: &str,
) -> Result<String, Fail> {
    let mut whole = String::from_str(alloc, front)?;
    for _ in 0..times {
        whole.push_str(text)?;
    }
    whole.push_str(back)?;
    Ok(whole)
}

/// What is read of a text, which a test keeps short enough.
fn read(alloc: Global, text: &[u8]) -> Result<Script, ScriptFault> {
    if text.len() > 2_147_483_647 {
        return Err(ScriptFault::Memory);
    }
    read_script(alloc, text)
}

fn is_refused(rt: &impl Abort, alloc: Global, text: &[u8], place: u64) {
    let fault = read(alloc, text).err();
    assert_eq!(rt; fault, Some(ScriptFault::ScriptSyntax { at: place }));
}

#[test]
fn first_places_that_are_no_script(rt: HostRuntime) {
    let rows: [(&[u8], u64); 24] = [
        (b"", 0),
        (b"schedule 01;", 9),
        (b"schedule 2;", 9),
        (b"schedule 1; at", 14),
        (b"schedule 1; at 0 do beta", 24),
        (b"schedule 1; at 4294967296 do beta;", 15),
        (b"schedule 1; at 0. 4294967296 do beta;", 18),
        (b"schedule 1; at 0 do beta();", 25),
        (b"schedule 1; at 0 do beta(1)(2);", 27),
        (b"schedule 1; at 0 do beta(1 < 2 < 3);", 31),
        (b"schedule 1; at 0 do beta(1 and 2 < 3);", 27),
        (b"schedule 1; at 0 do beta(N / 0);", 29),
        (b"schedule 1; at 0 do beta(N % 2147483648);", 29),
        (b"schedule 1; at 0 do beta(N / M);", 29),
        (b"schedule 1; at 0 do beta(18446744073709551616);", 25),
        (b"schedule 1; at 0 do beta by;", 27),
        (b"schedule 1; at 0 do beta by {1: 2,};", 34),
        (b"schedule 1; at 0 do beta by {1: 2147483649};", 32),
        (b"schedule 1; at 0 do beta by {1: -2147483649};", 33),
        (b"schedule 1; at 0 do beta by {4294967296: 1};", 29),
        (b"schedule 1; goal 1 by default; at 0 do beta;", 31),
        (b"schedule 1; parallel 0;", 12),
        (b"schedule 1; at 0 do beta; \xff", 26),
        (b"schedule 1; at ! do beta; \xff", 26),
    ];
    for (text, place) in rows {
        is_refused(&rt, rt.alloc(), text, place);
    }
}

#[test]
fn limits_of_steps_and_levels(rt: HostRuntime) -> Result<(), Fail> {
    let alloc = rt.alloc();
    let step = " at 0 do ring(add_comm);";
    let most = repeated(alloc, "schedule 1;", step, 1_000, "")?;
    let steps = read(alloc, most.as_bytes()).ok().map(|s| s.steps.len());
    assert_eq!(rt; steps, Some(1_000));
    let front = "schedule 1; at 0 do cut_gen(";
    let over = repeated(alloc, "schedule 1;", step, 1_001, "")?;
    is_refused(&rt, alloc, over.as_bytes(), 24_012);
    let table = [("-", 999, "1);"), ("(", 999, "1")];
    for (opening, levels, back) in table {
        let deepest = repeated(alloc, front, opening, levels, back)?;
        let whole = match back {
            "1" => repeated(alloc, deepest.as_str(), ")", 1_000, ";")?,
            _ => deepest,
        };
        assert!(rt;
            read(alloc, whole.as_bytes()).is_ok(),
            "{levels} times {opening}"
        );
        let over = repeated(alloc, front, opening, levels + 1, back)?;
        is_refused(&rt, alloc, over.as_bytes(), 28 + 999);
    }
    Ok(())
}

#[test]
fn a_tree_is_at_most_1000_deep(rt: HostRuntime) -> Result<(), Fail> {
    let alloc = rt.alloc();
    let front = "schedule 1; at 0 do f(";
    let deepest = repeated(alloc, front, "1+", 1_000, "1);")?;
    assert!(rt; read(alloc, deepest.as_bytes()).is_ok());
    for operators in [1_001, 400_000] {
        let deeper = repeated(alloc, front, "1+", operators, "1);")?;
        is_refused(&rt, alloc, deeper.as_bytes(), 21 + 2 * 1_001);
    }
    Ok(())
}

/// `{3: 1, 0: -2147483648}`, the default lines, and no lines.
fn are_certificates(lines: &[Lines]) -> bool {
    let [Lines::Given(first), Lines::Default, Lines::Given(last)] = lines else {
        return false;
    };
    let [_, second] = first.as_slice() else {
        return false;
    };
    last.is_empty() && second.fact == 0 && second.multiplier == -2_147_483_648
}

/// `N - 2*i0 - -j/3 >= 0 and x%5 == (1)`.
fn is_condition(all: &[Comparison]) -> bool {
    let [below, equal] = all else {
        return false;
    };
    let IxTree::Sub(front, back) = below.left.get() else {
        return false;
    };
    let IxTree::Div(minus, 3) = back.get() else {
        return false;
    };
    matches!((below.rel, equal.rel), (Rel::Ge, Rel::Eq))
        && matches!(equal.left.get(), IxTree::Rem(_, 5))
        && matches!(front.get(), IxTree::Sub(_, _))
        && matches!(minus.get(), IxTree::Neg(_))
}

/// `4`, and that condition.
fn are_arguments(args: &[ArgTree]) -> bool {
    let [ArgTree::Ix(four), ArgTree::Cond(all)] = args else {
        return false;
    };
    matches!(four.get(), IxTree::Num(4)) && is_condition(all.as_slice())
}

#[test]
fn a_script_is_read(rt: HostRuntime) {
    let text =
        "schedule 1;at 0.12 do cut( 4 , N - 2*i0 - -j/3 >= 0 and x%5 == (1)) by {3: 1, 0:-2147483648} by default by {};goal 9 by default;";
    let Ok(script) = read(rt.alloc(), text.as_bytes()) else {
        assert!(rt; false);
        return;
    };
    let ([step], [last]) = (script.steps.as_slice(), script.finals.as_slice()) else {
        assert!(rt; false);
        return;
    };
    assert_eq!(rt;
        (step.path.output, step.path.steps.as_slice()),
        (0, [12].as_slice())
    );
    assert_eq!(rt; step.rule.as_str(), "cut");
    assert!(rt; are_arguments(step.args.as_slice()));
    assert!(rt; are_certificates(step.lines.as_slice()));
    assert!(rt; last.goal == 9 && matches!(last.lines, Lines::Default));
    assert!(rt; script.parallel.is_empty());
}

/// Whether a text, read and printed, is this one, and the printed text, read and printed, too.
fn prints_as(alloc: Global, text: &str, want: &str) -> Result<bool, Fail> {
    let mut printed = text.as_bytes().to_vec(alloc)?;
    for _ in 0..2 {
        let Ok(script) = read(alloc, printed.as_slice()) else {
            return Ok(false);
        };
        let Ok(text) = print_script(alloc, &script) else {
            return Ok(false);
        };
        if text.as_slice() != want.as_bytes() {
            return Ok(false);
        }
        printed = text;
    }
    Ok(true)
}

#[test]
fn scripts_are_printed_and_read_back(rt: HostRuntime) -> Result<(), Fail> {
    let alloc = rt.alloc();
    let table = [
        ("schedule 1;", "schedule 1;\n"),
        (
            "schedule 1;at 0 do split_gen( 4 ) ;",
            "schedule 1;\nat 0 do split_gen(4);\n",
        ),
        (
            "schedule 1;at 0.00.12 do beta by{ 3 :1,0: -2}by default by{};goal 9 by default;",
            "schedule 1;\nat 0.0.12 do beta by {3: 1, 0: -2} by default by {};\ngoal 9 by default;\n",
        ),
        (
            "schedule 1;at 0 do f((1+(2-3)),((1-2)+3),1*(2/3),(1*2)/3,(1+2)*3%4,-(1+2),-(-a),- -(b*c),(-d)*e,i0-(-1));",
            "schedule 1;\nat 0 do f(1 + (2 - 3), 1 - 2 + 3, 1 * (2 / 3), 1 * 2 / 3, (1 + 2) * 3 % 4, -(1 + 2), --a, --(b * c), -d * e, i0 - -1);\n",
        ),
        (
            "schedule 1;at 0 do f(a<b and b<=c+1 and c>d,a>=b,a==b);",
            "schedule 1;\nat 0 do f(a < b and b <= c + 1 and c > d, a >= b, a == b);\n",
        ),
    ];
    for (text, want) in table {
        assert!(rt; prints_as(alloc, text, want)?, "{want}");
    }
    Ok(())
}
