// hebap, the active bins of a row, their gain words, and the mantissas of a bin.
ghost use Rattle.std.specs.Prelude.{◌≡◌, length};
ghost use Rattle.answers.specs.Answers.{answer_number, after_answer, value_or};
ghost use Rattle.tables.specs.Tables.{hebap_from_address};
ghost use Rattle.gains.specs.Gains.{endbap_for_gaqmod, gaq_gain_value, gaq_sections, fill_gaqbin, gaqbin_after, gains_after};
ghost use Rattle.scalars.specs.Scalars.{scalars_after};
ghost use Rattle.fathrugg.specs.Answers.{place, bit_of_place, gains_at, scalars_at, scalars_move};

use super::{store, store_place};
use bits::BitPos;

// The hebap of a power density and a mask. Refusal 12.
#[unsafe(no_mangle)]
pub extern "C" fn fathrugg_hebap_from_address(psd: i16, mask: i32, hebap: &mut u8) -> u8
    ensures value { result ≡ answer_number (hebap_from_address psd mask) }
    ensures hebap_after { hebap.new ≡ value_or hebap.old (hebap_from_address psd mask) }
{
    store(tables::hebap_from_address(psd, mask), hebap)
}

// Bins of hebap 8 up to this one, not included, are marked. Refusal 12.
#[unsafe(no_mangle)]
pub extern "C" fn fathrugg_endbap_for_gaqmod(gaqmod: u8, endbap: &mut u8) -> u8
    ensures value { result ≡ answer_number (endbap_for_gaqmod gaqmod) }
    ensures endbap_after { endbap.new ≡ value_or endbap.old (endbap_for_gaqmod gaqmod) }
{
    store(gains::endbap_for_gaqmod(gaqmod), endbap)
}

// Marks the bins of a row. Refusal 12.
#[unsafe(no_mangle)]
pub extern "C" fn fathrugg_fill_gaqbin(
    hebap: &[u8],
    gaqmod: u8,
    gaqbin: &mut [i8],
    active: &mut usize,
) -> u8
    ensures value { result ≡ answer_number (fill_gaqbin gaqmod hebap.now (length gaqbin.old)) }
    ensures active_after { active.new ≡ value_or active.old (fill_gaqbin gaqmod hebap.now (length gaqbin.old)) }
    ensures gaqbin_after { gaqbin.new ≡ gaqbin_after gaqmod hebap.now gaqbin.old }
{
    store(gains::fill_gaqbin(hebap, gaqmod, gaqbin), active)
}

// The gain words of so many active bins. Refusal 12.
#[unsafe(no_mangle)]
pub extern "C" fn fathrugg_gaq_sections(gaqmod: u8, active: usize, sections: &mut usize) -> u8
    ensures value { result ≡ answer_number (gaq_sections gaqmod active) }
    ensures sections_after { sections.new ≡ value_or sections.old (gaq_sections gaqmod active) }
{
    store(gains::gaq_sections(gaqmod, active), sections)
}

// Gk of a gain code. Refusal 12.
#[unsafe(no_mangle)]
pub extern "C" fn fathrugg_gaq_gain_value(code: u8, gaqmod: u8, gain: &mut u8) -> u8
    ensures value { result ≡ answer_number (gaq_gain_value code gaqmod) }
    ensures gain_after { gain.new ≡ value_or gain.old (gaq_gain_value code gaqmod) }
{
    store(gains::gaq_gain_value(code, gaqmod), gain)
}

// Reads gain words; their codes go to the front of the output. Refusals 12, 8.
#[unsafe(no_mangle)]
pub extern "C" fn fathrugg_read_gaq_gains(
    src: &[u8],
    byte: &mut usize,
    bit: &mut u32,
    gaqmod: u8,
    nsections: usize,
    out: &mut [u8],
    count: &mut usize,
) -> u8
    ensures value { result ≡ answer_number (gains_at src.now byte.old bit.old gaqmod nsections (length out.old)) }
    ensures count_after { count.new ≡ after_answer (λ r. r.0) count.old (gains_at src.now byte.old bit.old gaqmod nsections (length out.old)) }
    ensures bit_after { place byte.new bit.new ≡ after_answer (λ r. r.1) (place byte.old bit.old)
        (gains_at src.now byte.old bit.old gaqmod nsections (length out.old)) }
    ensures out_after { out.new ≡ gains_after src.now (bit_of_place byte.old bit.old) gaqmod nsections out.old }
{
    let p = BitPos {
        byte: *byte,
        bit: *bit,
    };
    match gains::read_gaq_gains(src, p, gaqmod, nsections, out) {
        Err(k) => k.number(),
        Ok((n, q)) => {
            *count = n;
            store_place(Ok(q), byte, bit)
        }
    }
}

// Reads the six mantissas of a bin. Refusals 12, 4, 8.
#[unsafe(no_mangle)]
pub extern "C" fn fathrugg_read_scalar_aht_mantissas(
    src: &[u8],
    byte: &mut usize,
    bit: &mut u32,
    hebap: u8,
    gaqmod: u8,
    gaqbin: i8,
    gain_code: u8,
    out: &mut [f32; 6],
) -> u8
    ensures value { result ≡ answer_number (scalars_move src.now byte.old bit.old hebap gaqmod gaqbin gain_code) }
    ensures bit_after { place byte.new bit.new ≡ value_or (place byte.old bit.old)
        (scalars_move src.now byte.old bit.old hebap gaqmod gaqbin gain_code) }
    ensures out_after { out.new ≡ scalars_after out.old (scalars_at src.now byte.old bit.old hebap gaqmod gaqbin gain_code) }
{
    let p = BitPos {
        byte: *byte,
        bit: *bit,
    };
    let answer = scalars::read_scalar_aht_mantissas(src, p, hebap, gaqmod, gaqbin, gain_code, out);
    store_place(answer, byte, bit)
}
