//! C texts on given texts.

use crate::calls::{EXEC, HEAD, SCHEDULE, over, text_of};
use crate::run::{GUARDED_LET, OUTPUTS};
use crate::scheduled::{ATTENTION, ATTENTION_STEPS, SCALE};
use atl_driver::Status;
use std::alloc::Global;
use std::process::Abort;
use std::test::Fail;

/// The status of a C text on a given text: what it writes is compared.
fn exec(
    rt: &impl Abort,
    alloc: Global,
    c: &[u8],
    given: &str,
    texts: (&str, &str),
) -> Result<Status, Fail> {
    let files = [("a.c", c), ("a.given", given.as_bytes())];
    over(rt, alloc, &EXEC, &files, 1024, texts)
}

// The C text of each source under its script is run as that source is, with other names.
#[test]
fn printed_texts_leave_what_their_sources_denote(rt: HostRuntime) -> Result<(), Fail> {
    let alloc = rt.alloc();
    let table = [
        (
            SCALE,
            "schedule 1;",
            "n0: 3; a0: 1 2 3;",
            "b0: 2 4 6;\nstores 6\n",
        ),
        (GUARDED_LET, "schedule 1;", "a0: 7;", "b0: 7 0;\nstores 7\n"),
        (
            ATTENTION,
            ATTENTION_STEPS,
            "n0: 2; n1: 2; a0: 1 2 3 4; a1: 1 0 0 1; a2: 1 2 3 4;",
            "b0: 7 10 15 22;\nstores 24\n",
        ),
        (
            OUTPUTS,
            "schedule 1;",
            "n0: 3; a0: 5 6 7;",
            "b0: 5 12 21;\nb1: 0;\nstores 10\n",
        ),
    ];
    for (source, script, given, text) in table {
        let files = [("a.atl", source.as_bytes()), ("a.sched", script.as_bytes())];
        let c = text_of(alloc, &SCHEDULE, &files)?;
        let status = exec(&rt, alloc, c.as_slice(), given, (text, ""))?;
        assert!(rt; matches!(status, Status::Done));
    }
    Ok(())
}

// The scaling source's text with two spaces for one below the first line, and more parentheses.
const SPACED: &str = "#include <stdint.h>
static  int64_t  top(int64_t  x,  int64_t  y)  {  return  x  >  y  ?  x  :  y;  }
static  void  fill(uint64_t  *p,  int64_t  at,  int64_t  n)  {  for  (int64_t  i  =  0;  i  <  n;  i  =  i  +  1)  p[at  +  i]  =  0;  }
int64_t  len_a0(int64_t  n0)  {  return  n0;  }
int64_t  len_b0(int64_t  n0)  {  return  n0;  }
void  atl(int64_t  n0,  const  uint64_t  *a0,  uint64_t  *b0)  {
    fill(b0,  INT64_C(0),  n0);
    for  (int64_t  i0  =  INT64_C(0);  i0  <  n0;  i0  =  i0  +  INT64_C(1))  {
        b0[i0]  =  (a0[(i0)])  *  UINT64_C(2);
    }
}
";

#[test]
fn other_texts_of_a_program_are_run_as_it_is(rt: HostRuntime) -> Result<(), Fail> {
    let alloc = rt.alloc();
    let text = "b0: 2 4 6;\nstores 6\n";
    let given = "n0: 3; a0: 1 2 3;";
    let status = exec(&rt, alloc, SPACED.as_bytes(), given, (text, ""))?;
    assert!(rt; matches!(status, Status::Done));
    Ok(())
}

const DOUBLED: &str = "b0[i0] = a0[i0] * UINT64_C(2);";

// The length of the output, the bound of the loop, its one statement, a given text, and the first fault.
#[test]
fn what_is_not_executed_has_its_first_fault(rt: HostRuntime) -> Result<(), Fail> {
    let alloc = rt.alloc();
    let table = [
        // The C text comes before what is given, and that before the sizes.
        (("n0", "n0 / n0", DOUBLED), "x", "F50 BadC at 406\n"),
        (
            ("n0", "n0", "b0[i0] = a0[i0] * UINT64_C(2); return"),
            "n0: 3; a0: 1 2 3;",
            "F50 BadC at 466\n",
        ),
        (
            ("n0", "n0", DOUBLED),
            "n0: 3; a0: 1 2 x;",
            "F40 BadData at 15\n",
        ),
        (
            ("n0", "n0", DOUBLED),
            "N: 3; A: 1 2 3;",
            "F40 BadData at 0\n",
        ),
        (
            ("n0 * n0", "n0", DOUBLED),
            "n0: 1099511627777; a0:;",
            "F41 SizesNotAllowed constraint 1\n",
        ),
        (
            ("n0 * n0", "n0", DOUBLED),
            "n0: 1099511627776; a0:;",
            "F51 Stuck overflow\n",
        ),
        (
            ("n0", "n0", DOUBLED),
            "n0: 16777216; a0: 1;",
            "F43 TooBigToRun words 33554432\n",
        ),
        (
            ("n0", "n0", "b0[i0 - INT64_C(1)] = UINT64_C(5);"),
            "n0: 3; a0: 1 2;",
            "F42 WrongCount input 0 want 3 got 2\n",
        ),
        (
            ("n0", "n0", "b0[i0 - INT64_C(1)] = UINT64_C(5);"),
            "n0: 1; a0: 4;",
            "F51 Stuck outside b0 -1\n",
        ),
        (
            ("n0", "n0", "b0[i0] = a0[n0];"),
            "n0: 1; a0: 4;",
            "F51 Stuck outside a0 1\n",
        ),
        (
            (
                "n0",
                "n0",
                "b0[INT64_C(9223372036854775807) + n0] = UINT64_C(5);",
            ),
            "n0: 1; a0: 4;",
            "F51 Stuck overflow\n",
        ),
        (
            (
                "n0",
                "n0",
                "b0[(INT64_C(0) - n0) / INT64_C(2)] = UINT64_C(5);",
            ),
            "n0: 1; a0: 4;",
            "F51 Stuck negative\n",
        ),
        (
            (
                "n0",
                "INT64_C(1099511627776)",
                "b0[INT64_C(0)] += UINT64_C(1);",
            ),
            "n0: 1; a0: 4;",
            "F44 TooMuchWork steps 134217729\n",
        ),
    ];
    for ((length, bound, statement), given, line) in table {
        let c = format!(in alloc;
            "{HEAD}int64_t len_a0(int64_t n0) {{ return n0; }}
int64_t len_b0(int64_t n0) {{ return {length}; }}
void atl(int64_t n0, const uint64_t *a0, uint64_t *b0) {{
  fill(b0, INT64_C(0), n0);
  for (int64_t i0 = INT64_C(0); i0 < {bound}; i0 = i0 + INT64_C(1)) {{
    {statement}
  }}
}}
"
        )?;
        let status = exec(&rt, alloc, c.as_bytes(), given, ("", line))?;
        assert!(rt; matches!(status, Status::Refused(_)));
    }
    Ok(())
}
