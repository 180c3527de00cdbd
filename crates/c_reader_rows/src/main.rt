//! What C texts are read as: for each file that is named, the canonical text of its program, or the place of its fault.
#![tactic(auto)]

use c_print::print_c;
use c_reader::{CFault, read_c};
use loop_lang::Prog;
use owned_values::spent;
use std::alloc::{AllocError, Global};
use std::io::Write;
use std::{env, fs, io};

fn canonical(alloc: Global, program: Prog) -> Result<Vec<u8>, AllocError> {
    let text = print_c(alloc, &program);
    spent(program);
    match text {
        Ok(text) => Ok(text),
        Err(_) => Err(AllocError),
    }
}

fn refusal(alloc: Global, fault: CFault) -> Result<Vec<u8>, AllocError> {
    match fault {
        CFault::BadC { at } => match format!(in alloc; "BadC at {at}\n") {
            Ok(line) => Ok(line.into_bytes()),
            Err(_) => Err(AllocError),
        },
        CFault::Memory => Err(AllocError),
    }
}

fn answer(alloc: Global, text: &[u8]) -> Result<Vec<u8>, AllocError> {
    match read_c(alloc, text) {
        Ok(program) => canonical(alloc, program),
        Err(fault) => refusal(alloc, fault),
    }
}

fn main(rt: HostRuntime) -> io::Result<()> {
    let alloc = rt.alloc();
    let mut out = io::writer(&rt);
    for name in env::args(&rt)?.skip(1) {
        let text = fs::read(&rt, name.as_str())?;
        let answer = answer(alloc, text.as_slice())?;
        out.write_all(name.as_bytes())?;
        out.write_all(b"\n")?;
        out.write_all(answer.as_slice())?;
    }
    Ok(())
}
