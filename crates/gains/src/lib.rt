// Gain-adaptive quantisation: which bins have a gain, and the gain words of the field.
#![tactic(auto)]

ghost use Rattle.std.specs.Prelude.{◌≡◌, cond, ◌∷◌, [], ◌+◌, ◌*◌, ◌/◌, ◌≤◌, min, eqb, length, drop};
ghost use Rattle.bits.specs.Bits.{bits_of, bit_at};
ghost use Rattle.gains.specs.Gains.{active, coding_of, allowed_gain, gain_word_bits, endbap_for_gaqmod, gain_value, gaq_gain_value, gaq_sections, fill_gaqbin, gaqbin_after, endbap, gaqbin_of, word_bits, first_code, group_codes, group_of, word_codes, words_read, codes_from, read_gaq_gains, gains_after};
ghost use Rattle.gains.specs.Work.{placed};

use answers::Refusal;
use bits::BitPos;

// From this mode on hebap 12 to 16 are active too.
const WIDE_FROM: u8 = 2;

// How a bin is coded: not at all, by an index of its book, by six codes at Gk 1, or by six codes at a gain of its own.
#[derive(Clone, Copy)]
pub enum Coding {
    Nothing,
    Book,
    Fixed,
    Adaptive,
}

// How a bin of the hebap is coded in the mode; 12 and 17 are the ends of the active hebaps (`end_of`), as match arms.
pub fn coding_of(gaqmod: u8, hebap: u8) -> Coding
    ensures { result ≡ coding_of gaqmod hebap }
{
    match hebap {
        0 => Coding::Nothing,
        1..=7 => Coding::Book,
        8..=11 => {
            if 0 < gaqmod {
                Coding::Adaptive
            } else {
                Coding::Fixed
            }
        }
        12..=16 => {
            if 1 < gaqmod {
                Coding::Adaptive
            } else {
                Coding::Fixed
            }
        }
        _ => Coding::Fixed,
    }
}

// A bin has a gain of its own from hebap 8 up to this one, not included.
fn active_end(gaqmod: u8) -> u8
    ensures { result ≡ cond (eqb gaqmod 0) 8 (endbap gaqmod) }
{
    if gaqmod == 0 { 8 } else { end_of(gaqmod) }
}

// Whether a bin of the hebap has a gain of its own in the mode. Two comparisons, so that loops over a row take
// several bins at a time.
pub fn is_active(gaqmod: u8, hebap: u8) -> bool
    ensures { result ≡ active gaqmod hebap }
{
    if hebap < 8 {
        return false;
    }
    hebap < active_end(gaqmod)
}

// The bits of the gain words of n active bins.
pub fn gain_word_bits(gaqmod: u8, n: u32) -> u32
    requires { n ≤ 65536 }
    ensures { result ≡ gain_word_bits gaqmod n }
{
    match gaqmod {
        0 => 0,
        3 => (n + 2) / 3 * 5,
        _ => n,
    }
}

// Whether the mode allows the gain.
pub fn is_allowed(gaqmod: u8, gain: u8) -> bool
    ensures { result ≡ allowed_gain gaqmod gain }
{
    if gain == 1 {
        return true;
    }
    match gaqmod {
        1 => gain == 2,
        2 => gain == 4,
        3 => {
            if gain == 2 {
                return true;
            }
            gain == 4
        }
        _ => false,
    }
}

fn end_of(gaqmod: u8) -> u8
    ensures { result ≡ endbap gaqmod }
{
    if gaqmod < WIDE_FROM { 12 } else { 17 }
}

// Bins of hebap 8 up to this one, not included, are marked (fill_gaqbin), also in mode 0. Refuses a mode above 3 with
// 12.
pub fn endbap_for_gaqmod(gaqmod: u8) -> Result<u8, Refusal>
    ensures { result ≡ endbap_for_gaqmod gaqmod }
{
    if 3 < gaqmod {
        return Err(Refusal::OutOfRange);
    }
    Ok(end_of(gaqmod))
}

fn mark(gaqmod: u8, h: u8) -> i8
    ensures { result ≡ gaqbin_of gaqmod h }
{
    if end_of(gaqmod) <= h {
        return -1;
    }
    if 7 < h { 1 } else { 0 }
}

// Marks each bin of the row: 1 for hebap 8 to endbap - 1, also in mode 0, where no gain is read; -1 from endbap on;
// else 0. Answers how many are 1. Refuses a mode above 3 with 12.
pub fn fill_gaqbin(hebap: &[u8], gaqmod: u8, gaqbin: &mut [i8]) -> Result<usize, Refusal>
    ensures value { result ≡ fill_gaqbin gaqmod hebap.now (length gaqbin.old) }
    ensures gaqbin_after { gaqbin.new ≡ gaqbin_after gaqmod hebap.now gaqbin.old }
{
    if 3 < gaqmod {
        return Err(Refusal::OutOfRange);
    }
    let mut active: usize = 0;
    // By index: after a zip with iter_mut a proof would know how many marks there are, and none of them.
    for i in 0..hebap.len().min(gaqbin.len()) {
        let m = mark(gaqmod, hebap[i]);
        gaqbin[i] = m;
        if m == 1 {
            active += 1;
        }
    }
    Ok(active)
}

// The gain words of so many active bins. Refuses a mode above 3 with 12.
pub fn gaq_sections(gaqmod: u8, active_gaqbins: usize) -> Result<usize, Refusal>
    ensures { result ≡ gaq_sections gaqmod active_gaqbins }
{
    match gaqmod {
        0 => Ok(0),
        1 | 2 => Ok(active_gaqbins),
        3 => Ok(active_gaqbins.div_ceil(3)),
        _ => Err(Refusal::OutOfRange),
    }
}

// Gk of a code; 1 in a mode without gains.
pub fn gain_value(code: u8, gaqmod: u8) -> u8
    ensures { result ≡ gain_value code gaqmod }
{
    if code == 0 {
        return 1;
    }
    match gaqmod {
        1 => 2,
        2 => 4,
        3 => { if code == 1 { 2 } else { 4 } }
        _ => 1,
    }
}

// The same. Refuses a mode above 3 with 12.
pub fn gaq_gain_value(code: u8, gaqmod: u8) -> Result<u8, Refusal>
    ensures { result ≡ gaq_gain_value code gaqmod }
{
    if 3 < gaqmod {
        return Err(Refusal::OutOfRange);
    }
    Ok(gain_value(code, gaqmod))
}

fn word_bits(gaqmod: u8) -> u32
    ensures { result ≡ word_bits gaqmod }
{
    if gaqmod == 3 { 5 } else { 1 }
}

fn words_read(gaqmod: u8, nsections: usize, places: usize) -> usize
    ensures { result ≡ words_read gaqmod nsections places }
{
    if gaqmod == 0 {
        return 0;
    }
    if gaqmod == 3 {
        return nsections;
    }
    nsections.min(places)
}

// The code goes to the place k, if there is one; answers the next place. Codes behind the end are dropped, so the place
// is handed on: of two functions, a struct for it is no plainer.
fn put_code(out: &mut [u8], k: usize, code: u8) -> usize
    requires { k ≤ length out.old }
    ensures value { result ≡ min (length out.old) (k + 1) }
    ensures out_after { out.new ≡ placed out.old k (code ∷ []) }
{
    if k < out.len() {
        out[k] = code;
        return k + 1;
    }
    k
}

// The three codes of a group word.
#[derive(Clone, Copy)]
pub struct GroupCodes {
    pub first: u8,
    pub second: u8,
    pub third: u8,
}

fn first_code(word: u32) -> u8
    ensures { result ≡ first_code word }
{
    if word < 18 { (word / 9) as u8 } else { 2 }
}

// A group word taken apart; words 27 to 31 have their first code cut to 2.
pub fn unpack(word: u32) -> GroupCodes
    requires { word ≤ 31 }
    ensures { result ≡ group_codes word }
{
    GroupCodes {
        first: first_code(word),
        second: (word % 9 / 3) as u8,
        third: (word % 9 % 3) as u8,
    }
}

// The group word of three codes.
pub fn pack(first: u32, second: u32, third: u32) -> u32
    requires { (first ≤ 2) × (second ≤ 2) × (third ≤ 2) }
    ensures { result ≡ group_of first second third }
{
    9 * first + 3 * second + third
}

// The codes of a word go to the places from k on, as far as there are any; answers the next place.
fn put_word(out: &mut [u8], k: usize, gaqmod: u8, word: u32) -> usize
    requires k_in_bounds { k ≤ length out.old }
    requires word_bound { word ≤ 31 }
    ensures value { result ≡ min (length out.old) (k + length (word_codes gaqmod word)) }
    ensures out_after { out.new ≡ placed out.old k (word_codes gaqmod word) }
{
    if gaqmod == 3 {
        let c = unpack(word);
        let a = put_code(&mut *out, k, c.first);
        let b = put_code(&mut *out, a, c.second);
        return put_code(&mut *out, b, c.third);
    }
    put_code(&mut *out, k, word as u8)
}

// The codes of n words go to the front of the output; answers how many there was room for.
fn put_words(src: &[u8], pos: BitPos, gaqmod: u8, n: usize, out: &mut [u8]) -> usize
    requires { bit_at pos + word_bits gaqmod * n ≤ 8 * length src.now }
    ensures value { result ≡ min (length out.old) (length (codes_from gaqmod n (drop (bit_at pos) (bits_of src.now)))) }
    ensures out_after { out.new ≡ placed out.old 0 (codes_from gaqmod n (drop (bit_at pos) (bits_of src.now))) }
{
    let w = word_bits(gaqmod);
    let mut p = pos;
    let mut k: usize = 0;
    for _ in 0..n {
        k = put_word(&mut *out, k, gaqmod, p.peek(src, w));
        p = p.advance(w, 1);
    }
    k
}

// Reads nsections gain words and puts their codes 0 to 2 to the front of the output, as far as it goes. Refuses with
// 12, then 8.
pub fn read_gaq_gains(
    src: &[u8],
    pos: BitPos,
    gaqmod: u8,
    nsections: usize,
    out: &mut [u8],
) -> Result<(usize, BitPos), Refusal>
    ensures value { result ≡ read_gaq_gains src.now (bit_at pos) gaqmod nsections (length out.old) }
    ensures out_after { out.new ≡ gains_after src.now (bit_at pos) gaqmod nsections out.old }
{
    if 3 < gaqmod {
        return Err(Refusal::OutOfRange);
    }
    let n = words_read(gaqmod, nsections, out.len());
    let w = word_bits(gaqmod);
    if pos.has_bits(src.len(), w, n) {
        let k = put_words(src, pos, gaqmod, n, &mut *out);
        Ok((k, pos.advance(w, n)))
    } else {
        Err(Refusal::InputEnds)
    }
}
