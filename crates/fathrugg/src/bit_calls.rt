// Numbers of n bits, read and written.
ghost use Rattle.std.specs.Prelude.{◌≡◌};
ghost use Rattle.answers.specs.Answers.{answer_number, after_answer, value_or};
ghost use Rattle.bits.specs.Bits.{written};
ghost use Rattle.fathrugg.specs.Answers.{place, bit_of_place, read_u32_at, write_u32_at};

use super::store_place;
use bits::BitPos;

// The next n bits as a number. Refusals 12, 8.
#[unsafe(no_mangle)]
pub extern "C" fn fathrugg_read_u32(
    src: &[u8],
    byte: &mut usize,
    bit: &mut u32,
    n: u32,
    value: &mut u32,
) -> u8
    ensures value { result ≡ answer_number (read_u32_at src.now byte.old bit.old n) }
    ensures value_after { value.new ≡ after_answer (λ r. r.0) value.old (read_u32_at src.now byte.old bit.old n) }
    ensures bit_after { place byte.new bit.new ≡ after_answer (λ r. r.1) (place byte.old bit.old)
        (read_u32_at src.now byte.old bit.old n) }
{
    let p = BitPos {
        byte: *byte,
        bit: *bit,
    };
    match p.read_u32(src, n) {
        Err(k) => k.number(),
        Ok((v, q)) => {
            *value = v;
            store_place(Ok(q), byte, bit)
        }
    }
}

// The low n bits of v are put at the position. Refusals 12, 7.
#[unsafe(no_mangle)]
pub extern "C" fn fathrugg_write_u32(
    out: &mut [u8],
    byte: &mut usize,
    bit: &mut u32,
    v: u32,
    n: u32,
) -> u8
    ensures value { result ≡ answer_number (write_u32_at out.old byte.old bit.old n) }
    ensures bit_after { place byte.new bit.new ≡ value_or (place byte.old bit.old)
        (write_u32_at out.old byte.old bit.old n) }
    ensures out_after { out.new ≡ written out.old (bit_of_place byte.old bit.old) v n }
{
    let p = BitPos {
        byte: *byte,
        bit: *bit,
    };
    store_place(p.write_u32(out, v, n), byte, bit)
}
