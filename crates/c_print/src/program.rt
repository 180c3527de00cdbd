//! Programs.

ghost use Rattle.std.specs.Prelude.{◌≡◌, ◌<◌, ◌-◌, ◌++◌, OnOk, IfOk, map};
ghost use Rattle.std.specs.List.{flat_map, range_with_len};
ghost use Rattle.loop_lang.specs.declared.word.Buf.TheVariants.{Input, Output, Scratch};
ghost use Rattle.c_print.specs.Program.{heading, buffers, size_parameter, pointer_text, buffer_parameter, after_comma, with_commas, size_parameters, sizes_text, length_line, length_lines, function_text, canonical_text};

use crate::fault::PrintFault;
use crate::level::Level;
use crate::writer::Writer;
use loop_lang::{Buf, Iexp, Prog};
use std::alloc::{AllocError, Global};

fn inputs(alloc: Global, count: u32) -> Result<Vec<Buf>, AllocError>
    ensures { IfOk result (λ all. all.items ≡ map Input (range_with_len 0 count)) }
{
    (0..count).map(|k| Buf::Input(k)).collect(alloc)
}

fn outputs(alloc: Global, count: u32) -> Result<Vec<Buf>, AllocError>
    ensures { IfOk result (λ all. all.items ≡ map Output (range_with_len 0 count)) }
{
    (0..count).map(|k| Buf::Output(k)).collect(alloc)
}

fn scratch(alloc: Global, count: u32) -> Result<Vec<Buf>, AllocError>
    ensures { IfOk result (λ all. all.items ≡ map Scratch (range_with_len 0 count)) }
{
    (0..count).map(|k| Buf::Scratch(k)).collect(alloc)
}

fn all_buffers(alloc: Global, prog: &Prog) -> Result<Vec<Buf>, PrintFault>
    ensures { IfOk result (λ all. all.items ≡ buffers prog.now) }
{
    let mut all = inputs(alloc, prog.inputs)?;
    all.append(&mut outputs(alloc, prog.outputs)?)?;
    all.append(&mut scratch(alloc, prog.scratch)?)?;
    Ok(all)
}

fn pointer(buffer: Buf) -> &'static [u8]
    ensures { result.now ≡ pointer_text buffer }
{
    match buffer {
        Buf::Input(_) => b"const uint64_t *",
        Buf::Output(_) | Buf::Scratch(_) => b"uint64_t *",
    }
}

impl Writer {
    /// A size as a parameter, and what stands before it.
    fn put_size_parameter(&mut self, before: &[u8], size: u32) -> Result<(), PrintFault>
        ensures { OnOk result (self.new ≡ self.old ++ (before.now ++ size_parameter size)) }
    {
        self.put(before)?;
        self.put(b"int64_t ")?;
        self.put_size(size)
    }

    /// The sizes behind the first, as parameters.
    #[tactic(auto, using(crate::proofs::Loops::sizes_laws))]
    fn put_further_sizes(&mut self, count: u32) -> Result<(), PrintFault>
        requires { 0 < count }
        ensures { OnOk result (self.new ≡ self.old ++ flat_map after_comma (map size_parameter (range_with_len 1 (count - 1)))) }
    {
        for size in 1..count {
            self.put_size_parameter(b", ", size)?;
        }
        Ok(())
    }

    #[tactic(auto, using(crate::proofs::Loops::sizes_laws))]
    fn put_sizes(&mut self, count: u32) -> Result<(), PrintFault>
        ensures { OnOk result (self.new ≡ self.old ++ with_commas (size_parameters count)) }
    {
        if count == 0 {
            return Ok(());
        }
        self.put_size_parameter(b"", 0)?;
        self.put_further_sizes(count)
    }

    /// The parameters of a length.
    fn put_length_sizes(&mut self, count: u32) -> Result<(), PrintFault>
        ensures { OnOk result (self.new ≡ self.old ++ sizes_text count) }
    {
        if count == 0 {
            self.put(b"void")
        } else {
            self.put_sizes(count)
        }
    }

    fn put_length(&mut self, sizes: u32, buffer: Buf, length: &Iexp) -> Result<(), PrintFault>
        ensures { OnOk result (self.new ≡ self.old ++ length_line sizes buffer length.now) }
    {
        self.put(b"int64_t len_")?;
        self.put_buffer(buffer)?;
        self.put(b"(")?;
        self.put_length_sizes(sizes)?;
        self.put(b") { return ")?;
        self.put_index(length, Level::Choice)?;
        self.put(b"; }\n")
    }

    fn put_lengths(&mut self, sizes: u32, all: &[Buf], lengths: &[Iexp]) -> Result<(), PrintFault>
        ensures { OnOk result (self.new ≡ self.old ++ length_lines sizes all.now lengths.now) }
    {
        let count = all.len().min(lengths.len());
        for i in 0..count {
            self.put_length(sizes, all[i], &lengths[i])?;
        }
        Ok(())
    }

    fn put_buffer_parameter(&mut self, buffer: Buf) -> Result<(), PrintFault>
        ensures { OnOk result (self.new ≡ self.old ++ buffer_parameter buffer) }
    {
        self.put(pointer(buffer))?;
        self.put_buffer(buffer)
    }

    fn put_further_buffers(&mut self, all: &[Buf]) -> Result<(), PrintFault>
        ensures { OnOk result (self.new ≡ self.old ++ flat_map after_comma (map buffer_parameter all.now)) }
    {
        for buffer in all {
            self.put(b", ")?;
            self.put_buffer_parameter(*buffer)?;
        }
        Ok(())
    }

    fn put_buffers(&mut self, all: &[Buf]) -> Result<(), PrintFault>
        ensures { OnOk result (self.new ≡ self.old ++ with_commas (map buffer_parameter all.now)) }
    {
        match all {
            [] => Ok(()),
            [first, further @ ..] => {
                self.put_buffer_parameter(*first)?;
                self.put_further_buffers(further)
            }
        }
    }

    #[tactic(auto, using(crate::proofs::Loops::sizes_laws))]
    fn put_parameters(&mut self, sizes: u32, all: &[Buf]) -> Result<(), PrintFault>
        ensures { OnOk result (self.new ≡ self.old ++ with_commas (size_parameters sizes ++ map buffer_parameter all.now)) }
    {
        if sizes == 0 {
            return self.put_buffers(all);
        }
        self.put_sizes(sizes)?;
        self.put_further_buffers(all)
    }

    /// The function, which begins behind the lengths.
    fn put_function(&mut self, prog: &Prog, all: &[Buf]) -> Result<(), PrintFault>
        requires { all.now ≡ buffers prog.now }
        ensures { OnOk result (self.new ≡ self.old ++ function_text prog.now) }
    {
        self.put(b"void atl(")?;
        self.put_parameters(prog.sizes, all)?;
        self.put(b") {\n")?;
        self.put_statement(&prog.body, 1, 0)?;
        self.put(b"}\n")
    }

    fn put_heading(&mut self) -> Result<(), PrintFault>
        ensures { OnOk result (self.new ≡ self.old ++ heading) }
    {
        self.put(b"#include <stdint.h>\n")?;
        self.put(b"static int64_t top(int64_t x, int64_t y) { return x > y ? x : y; }\n")?;
        self.put(
            b"static void fill(uint64_t *p, int64_t at, int64_t n) { for (int64_t i = 0; i < n; i = i + 1) p[at + i] = 0; }\n",
        )
    }
}

/// The C text of a program, in time linear in its length.
#[tactic(auto, unfolding(crate::specs::Program::canonical_text))]
pub fn print_c(alloc: Global, prog: &Prog) -> Result<Vec<u8>, PrintFault>
    ensures { IfOk result (λ text. text.items ≡ canonical_text prog.now) }
{
    let all = all_buffers(alloc, prog)?;
    let mut writer = Writer::new(alloc);
    writer.put_heading()?;
    writer.put_lengths(prog.sizes, all.as_slice(), prog.lengths.as_slice())?;
    writer.put_function(prog, all.as_slice())?;
    Ok(writer.into_bytes())
}
