// The tables of ATSC A/52 Annex E, section 3.4, and what they say of a hebap.
#![tactic(auto)]

ghost use Rattle.std.specs.Prelude.{◌≡◌, ◌-◌, ◌<◌, get_or};
ghost use Rattle.tables.specs.Numbers.{hebaptab};
ghost use Rattle.tables.specs.Tables.{mant_bits, vq_bits, gaq_remap_at, hebap_from_address, book};

use answers::Refusal;

mod consts;

// The lowest mask that is answered.
const LEAST_MASK: i32 = -65536;

// m of a hebap, 0 where it is not 8 to 19.
pub fn mant_bits(hebap: u8) -> u8
    ensures { result ≡ mant_bits hebap }
{
    let h = hebap as usize;
    if h < 20 {
        consts::HEBAP_MANT_BITS[h]
    } else {
        0
    }
}

// The bits of a book's index, 0 where hebap is not 1 to 7.
pub fn vq_bits(hebap: u8) -> u8
    ensures { result ≡ vq_bits hebap }
{
    let h = hebap as usize;
    if h < 8 { consts::VQ_BITS[h] } else { 0 }
}

fn remap_row(hebap: u8) -> usize
    ensures { result ≡ hebap - 8 }
{
    if hebap < 8 { 0 } else { hebap as usize - 8 }
}

// A number of GAQ_REMAP: row hebap - 8, column 0 to 6. Above hebap 19 it is 0, as the whole row of hebap 19 is.
pub fn gaq_remap_at(hebap: u8, column: usize) -> i16
    requires { column < 7 }
    ensures { result ≡ gaq_remap_at hebap column }
{
    let i = remap_row(hebap) * 7 + column;
    if i < 84 { consts::GAQ_REMAP[i] } else { 0 }
}

fn hebap_at(address: usize) -> u8
    requires { address < 64 }
    ensures { result ≡ get_or hebaptab address 0 }
{
    consts::HEBAPTAB[address]
}

// The hebap of a power density and a mask. Refuses a mask outside -65536 to 65536 with 12.
pub fn hebap_from_address(psd: i16, mask_after_floor: i32) -> Result<u8, Refusal>
    ensures { result ≡ hebap_from_address psd mask_after_floor }
{
    if mask_after_floor < LEAST_MASK {
        return Err(Refusal::OutOfRange);
    }
    if 65536 < mask_after_floor {
        return Err(Refusal::OutOfRange);
    }
    let d = (psd as i32) - mask_after_floor;
    if d < 0 {
        return Ok(hebap_at(0));
    }
    let address = (d as usize) / 32;
    if 63 < address {
        return Ok(hebap_at(63));
    }
    Ok(hebap_at(address))
}

// The book of a hebap, six numbers a vector; no number where the hebap has none.
pub fn vq_book(hebap: u8) -> &'static [i16]
    ensures { result.now ≡ book hebap }
{
    match hebap {
        1 => &consts::VQ_HEBAP1,
        2 => &consts::VQ_HEBAP2,
        3 => &consts::VQ_HEBAP3,
        4 => &consts::VQ_HEBAP4,
        5 => &consts::VQ_HEBAP5,
        6 => &consts::VQ_HEBAP6,
        7 => &consts::VQ_HEBAP7,
        _ => &[],
    }
}
