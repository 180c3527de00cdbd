ghost use Rattle.std.specs.Prelude.{◌≡◌, IfOk};
ghost use Rattle.printer_rows.specs.Modules.{doubled, doubled_inputs, doubled_outputs, doubled_sizes, doubled_term, paired, product_term, word_term};

use affine_index::{Aff, AffRefusal};
use atl_printer::print_module;
use owned_values::two;
use sqlite_items::{Boxed, Items};
use std::alloc::Global;
use std::test::Fail;
use term_tree::{InputDecl, Module, Name, OutputDecl, SizeDecl, Term};

fn named(alloc: Global, name: &str) -> Result<Name, AffRefusal>
    ensures { IfOk result (λ made. made ≡ name.now) }
{
    Ok(Name::new(String::from_str(alloc, name)?))
}

fn held(alloc: Global, term: Term) -> Result<Boxed<Term>, AffRefusal>
    ensures { IfOk result (λ held. held ≡ term) }
{
    Ok(Boxed::new(alloc, term)?)
}

/// `size N in 0..8`
fn sizes(alloc: Global) -> Result<Items<SizeDecl>, AffRefusal>
    ensures { IfOk result (λ sizes. sizes ≡ doubled_sizes) }
{
    let name = named(alloc, "N")?;
    let mut sizes = Items::new(alloc);
    sizes.push(SizeDecl {
        name,
        low: 0,
        high: 8,
    })?;
    Ok(sizes)
}

/// `input A[N]`
fn inputs(alloc: Global) -> Result<Items<InputDecl>, AffRefusal>
    ensures { IfOk result (λ inputs. inputs ≡ doubled_inputs) }
{
    let mut extents = Items::new(alloc);
    extents.push(Aff::size(alloc, 0)?)?;
    let name = named(alloc, "A")?;
    let mut inputs = Items::new(alloc);
    inputs.push(InputDecl { name, extents })?;
    Ok(inputs)
}

/// `gen i < N. A[i] * 2`
fn term(alloc: Global) -> Result<Boxed<Term>, AffRefusal>
    ensures { IfOk result (λ term. term ≡ doubled_term) }
{
    let (array, place) = two(held(alloc, Term::TVar(0)), Aff::var(alloc, 0))?;
    let (row, word) = two(
        held(alloc, Term::Index(array, place)),
        held(alloc, Term::Lit(2)),
    )?;
    let (extent, product) = two(Aff::size(alloc, 0), held(alloc, Term::Mul(row, word)))?;
    held(alloc, Term::Gen(extent, product))
}

/// `output B = gen i < N. A[i] * 2`
fn outputs(alloc: Global) -> Result<Items<OutputDecl>, AffRefusal>
    ensures { IfOk result (λ outputs. outputs ≡ doubled_outputs) }
{
    let (name, term) = two(named(alloc, "B"), term(alloc))?;
    let term = term.into_inner();
    let mut outputs = Items::new(alloc);
    outputs.push(OutputDecl { name, term })?;
    Ok(outputs)
}

fn example(alloc: Global) -> Result<Items<u64>, AffRefusal>
    ensures { IfOk result (λ example. example ≡ doubled.example) }
{
    let mut example = Items::new(alloc);
    example.push(3)?;
    Ok(example)
}

fn doubled_module(alloc: Global) -> Result<Module, AffRefusal>
    ensures { IfOk result (λ made. made ≡ doubled) }
{
    let (sizes, example) = two(sizes(alloc), example(alloc))?;
    let (inputs, outputs) = two(inputs(alloc), outputs(alloc))?;
    Ok(Module {
        version: 1,
        sizes,
        assumes: Items::new(alloc),
        example,
        inputs,
        outputs,
    })
}

/// `(1 + 2) * 3`
fn product(alloc: Global) -> Result<Boxed<Term>, AffRefusal>
    ensures { IfOk result (λ term. term ≡ product_term) }
{
    let (one, two_words) = two(held(alloc, Term::Lit(1)), held(alloc, Term::Lit(2)))?;
    let (sum, three) = two(
        held(alloc, Term::Add(one, two_words)),
        held(alloc, Term::Lit(3)),
    )?;
    held(alloc, Term::Mul(sum, three))
}

/// `word(5)`
fn word(alloc: Global) -> Result<Boxed<Term>, AffRefusal>
    ensures { IfOk result (λ term. term ≡ word_term) }
{
    let five = Aff::literal(alloc, 5)?;
    held(alloc, Term::WordOf(five))
}

fn output(alloc: Global, name: &str, term: Boxed<Term>) -> Result<OutputDecl, AffRefusal>
    ensures { IfOk result (λ output. output ≡ record { name = name.now; term = term }) }
{
    let name = named(alloc, name)?;
    let term = term.into_inner();
    Ok(OutputDecl { name, term })
}

fn paired_outputs(alloc: Global) -> Result<Items<OutputDecl>, AffRefusal>
    ensures { IfOk result (λ outputs. outputs ≡ paired.outputs) }
{
    let (product, word) = two(product(alloc), word(alloc))?;
    let mut outputs = Items::new(alloc);
    outputs.push(output(alloc, "B", product)?)?;
    outputs.push(output(alloc, "C", word)?)?;
    Ok(outputs)
}

fn paired_module(alloc: Global) -> Result<Module, AffRefusal>
    ensures { IfOk result (λ made. made ≡ paired) }
{
    let outputs = paired_outputs(alloc)?;
    Ok(Module {
        version: 2,
        sizes: Items::new(alloc),
        assumes: Items::new(alloc),
        example: Items::new(alloc),
        inputs: Items::new(alloc),
        outputs,
    })
}

#[test]
fn a_vector_doubled_prints_as_five_lines(rt: HostRuntime) -> Result<(), Fail> {
    let alloc = rt.alloc();
    let source = doubled_module(alloc)?;
    let text = print_module(alloc, &source)?;
    assert_eq!(rt;
        text.as_slice(),
        b"atl 1;\nsize N in 0..8;\nexample N = 3;\ninput A[N];\noutput B = gen i0 < N. A[i0] * 2;\n".as_slice()
    );
    Ok(())
}

#[test]
fn a_sum_in_a_product_and_an_index_as_a_word_print_in_version_two(
    rt: HostRuntime,
) -> Result<(), Fail> {
    let alloc = rt.alloc();
    let source = paired_module(alloc)?;
    let text = print_module(alloc, &source)?;
    assert_eq!(rt;
        text.as_slice(),
        b"atl 2;\noutput B = (1 + 2) * 3;\noutput C = word(5);\n".as_slice()
    );
    Ok(())
}
