// Codes for mantissas: the books and the scalar quantiser.
ghost use Rattle.std.specs.Prelude.{◌≡◌};
ghost use Rattle.answers.specs.Answers.{answer_number, after_answer, value_or};
ghost use Rattle.levels.specs.Codes.{large_of, code_of};
ghost use Rattle.books.specs.Books.{vq_lookup, vq_search};
ghost use Rattle.quantiser.specs.Quantise.{quantised, quantised_bin, picked_large, picked_code, picked_value};

use super::store;
use levels::Code;

// The vector at an index of the book of the hebap. No refusal.
#[unsafe(no_mangle)]
pub extern "C" fn fathrugg_vq_lookup(hebap: u8, index: usize, out: &mut [f32; 6]) -> u8
    ensures value { result ≡ 0 }
    ensures out_after { out.new ≡ vq_lookup hebap index }
{
    *out = books::vq_lookup(hebap, index);
    0
}

// The index of the vector nearest to x in the book of the hebap. Refusal 5.
#[unsafe(no_mangle)]
pub extern "C" fn fathrugg_vq_search(hebap: u8, x: &[f32; 6], index: &mut usize) -> u8
    ensures value { result ≡ answer_number (vq_search hebap x.now) }
    ensures index_after { index.new ≡ value_or index.old (vq_search hebap x.now) }
{
    store(books::vq_search(hebap, x), index)
}

// 1 for a large code, 0 for a small one, as C is told of it.
fn large_of(code: Code) -> u8
    ensures { result ≡ large_of code }
{
    match code {
        Code::Small(_) => 0,
        Code::Large(_) => 1,
    }
}

// The bits of a code, large or small.
fn code_of(code: Code) -> u32
    ensures { result ≡ code_of code }
{
    match code {
        Code::Small(s) => s,
        Code::Large(l) => l,
    }
}

// The code for x: whether it is large, its bits, and the f32 that it stands for. Refusals 11, 5.
#[unsafe(no_mangle)]
pub extern "C" fn fathrugg_quantise_scalar(
    hebap: u8,
    gk: u8,
    x: f32,
    large: &mut u8,
    code: &mut u32,
    value: &mut f32,
) -> u8
    ensures value { result ≡ answer_number (quantised hebap gk x) }
    ensures large_after { large.new ≡ picked_large large.old (quantised hebap gk x) }
    ensures code_after { code.new ≡ picked_code code.old (quantised hebap gk x) }
    ensures value_after { value.new ≡ picked_value value.old (quantised hebap gk x) }
{
    match quantiser::quantise_scalar(hebap, gk, x) {
        Err(k) => k.number(),
        Ok(p) => {
            *large = large_of(p.code);
            *code = code_of(p.code);
            *value = levels::value_of(p.level);
            0
        }
    }
}

// The six values of a bin, its bits and the sum of its squared errors. Refusals 11, 5.
#[unsafe(no_mangle)]
pub extern "C" fn fathrugg_quantise_bin(
    hebap: u8,
    gk: u8,
    x: &[f32; 6],
    values: &mut [f32; 6],
    bits: &mut u32,
    err: &mut f32,
) -> u8
    ensures value { result ≡ answer_number (quantised_bin hebap gk x.now) }
    ensures values_after { values.new ≡ after_answer (λ b. b.values) values.old (quantised_bin hebap gk x.now) }
    ensures bits_after { bits.new ≡ after_answer (λ b. b.bits) bits.old (quantised_bin hebap gk x.now) }
    ensures err_after { err.new ≡ after_answer (λ b. b.err) err.old (quantised_bin hebap gk x.now) }
{
    match quantiser::quantise_bin(hebap, gk, x) {
        Err(k) => k.number(),
        Ok(b) => {
            // by way of a variable: a field's array is not stored straight away
            let six = b.values;
            *values = six;
            *bits = b.bits;
            *err = b.err;
            0
        }
    }
}
