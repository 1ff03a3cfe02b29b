// The C interface: each call answers the number of its refusal, 0 for none. A position is a byte and a bit, lent and
// moved on.
#![tactic(auto)]

ghost use Rattle.std.specs.Prelude.{◌≡◌};
ghost use Rattle.answers.specs.Answers.{answer_number, value_or};
ghost use Rattle.fathrugg.specs.Answers.{place};

use answers::Refusal;
use bits::BitPos;

mod bit_calls;
mod channel_calls;
mod page_calls;
mod quantiser_calls;
mod row_calls;

// The version, 10000 × major + 100 × minor + patch: 0.4.0, as include/fathrugg.h and bindings/rust have it.
#[unsafe(no_mangle)]
pub extern "C" fn fathrugg_version() -> u32
    ensures { result ≡ 400 }
{
    400
}

// A value goes to the place lent for it, and a refusal leaves that as it was. Answers the refusal's number, 0 for none.
fn store<T: Copy>(answer: Result<T, Refusal>, lent: &mut T) -> u8
    ensures value { result ≡ answer_number answer }
    ensures lent_after { lent.new ≡ value_or lent.old answer }
{
    match answer {
        Err(k) => k.number(),
        Ok(v) => {
            *lent = v;
            0
        }
    }
}

// The same of a position, lent as a byte and a bit.
fn store_place(answer: Result<BitPos, Refusal>, byte: &mut usize, bit: &mut u32) -> u8
    ensures value { result ≡ answer_number answer }
    ensures bit_after { place byte.new bit.new ≡ value_or (place byte.old bit.old) answer }
{
    match answer {
        Err(k) => k.number(),
        Ok(q) => {
            *byte = q.byte;
            *bit = q.bit;
            0
        }
    }
}
