// The reading of scalar mantissas: a code, the six codes of a bin, and read_scalar_aht_mantissas of the Rust.
#![tactic(auto)]

ghost use Rattle.std.specs.Prelude.{◌≡◌, ◌≢◌, ◌+◌, ◌*◌, ◌≤◌, Ok, OnErr, length, take, drop};
ghost use Rattle.bits.specs.Bits.{bit_at};
ghost use Rattle.bits.specs.Format.{move_answer};
ghost use Rattle.bits.specs.Takes.{ahead, Takes};
ghost use Rattle.tables.specs.Tables.{mant_bits};
ghost use Rattle.levels.specs.Codes.{tagged, coded, six};
ghost use Rattle.scalars.specs.Scalars.{gain_of, values_read, bin_read, scalars_read, scalars_after};
ghost use Rattle.scalars.specs.Work.{six_values, six_exacts, SixLeft};

use answers::Refusal;
use bits::BitPos;
use bits::field_reader::FieldReader;
use levels::{Code, CodeScale};

// s in w bits; the tag is followed by l in v bits.
fn read_tagged(reader: &mut FieldReader, w: u32, v: u32) -> Result<Code, Refusal>
    requires { (1 ≤ w) × (w ≤ 16) × (v ≤ 16) }
    ensures { Takes (λ c. c) ((tagged w v).dec (ahead reader.old)) result (λ c. Unit) reader.old reader.new }
{
    let s = reader.read_u32(w)?;
    if s != bits::pow2(w - 1) {
        return Ok(Code::Small(s));
    }
    Ok(Code::Large(reader.read_u32(v)?))
}

// A code of the hebap at the gain. A reader that meets the end behind a tag stands behind the tag then.
#[tactic(auto, using(tables::proofs::Rules::mant_bits_lem, levels::proofs::CodeLaws::coded_tagged))]
fn next_code(reader: &mut FieldReader, hebap: u8, gk: u8) -> Result<Code, Refusal>
    requires { (8 ≤ hebap) × (hebap ≤ 19) }
    ensures { Takes (λ c. c) ((coded (mant_bits hebap) gk).dec (ahead reader.old)) result (λ c. Unit) reader.old reader.new }
{
    let m = levels::mant(hebap);
    if gk == 1 {
        return Ok(Code::Large(reader.read_u32(m)?));
    }
    read_tagged(reader, levels::small_bits(m, gk), levels::large_bits(m, gk))
}

// A code of the hebap at the gain. Refuses with 8; a refusal leaves the reader as it was.
pub fn read_code(reader: &mut FieldReader, hebap: u8, gk: u8) -> Result<Code, Refusal>
    requires { (8 ≤ hebap) × (hebap ≤ 19) }
    ensures reads { Takes (λ c. c) ((coded (mant_bits hebap) gk).dec (ahead reader.old)) result (λ c. Unit) reader.old reader.new }
    ensures kept { OnErr result (reader.new ≡ reader.old) }
{
    let mut local = *reader;
    let code = next_code(&mut local, hebap, gk)?;
    *reader = local;
    Ok(code)
}

// Six codes of Gk 1, bounds-checked by the caller. A copy of the reader stays in registers: the position of one that is
// lent goes through memory at each code.
fn read_fixed(reader: &mut FieldReader, s: CodeScale, values: &mut [f32], exact: &mut [i32])
    requires gk_value { s.gk ≡ 1 }
    requires there { reader.old.pos.byte + 28 ≤ length reader.old.src.now }
    requires places { (length values.old ≡ 6) × (length exact.old ≡ 6) }
    ensures reads { Takes (λ cs. tt) ((six (mant_bits s.hebap) s.gk).dec (ahead reader.old)) (Ok (tt {0})) (λ cs. Unit) reader.old reader.new }
    ensures values_after { values.new ≡ six_values s.hebap s.gk 0 (ahead reader.old) values.old }
    ensures exact_after { exact.new ≡ six_exacts s.hebap s.gk 0 (ahead reader.old) exact.old }
{
    let mut local = *reader;
    // by index, since two arrays are filled in step
    for j in 0..6 {
        let u = local.take_word(s.large);
        values[j] = levels::fixed_value(s, u);
        exact[j] = levels::fixed_exact(s, u);
    }
    *reader = local;
}

// The next code of another gain, bounds-checked by the caller.
fn take_code(reader: &mut FieldReader, s: CodeScale) -> Code
    requires other { s.gk ≢ 1 }
    requires there { reader.old.pos.byte + 8 ≤ length reader.old.src.now }
    ensures reads { Takes (λ c. c) ((coded (mant_bits s.hebap) s.gk).dec (ahead reader.old)) (Ok result) (λ c. Unit) reader.old reader.new }
    ensures near { bit_at reader.new.pos ≤ bit_at reader.old.pos + 30 }
{
    let u = reader.take_word(s.small);
    if u == bits::pow2(s.small - 1) {
        return Code::Large(reader.take_word(s.large));
    }
    Code::Small(u)
}

// Six codes of another gain, bounds-checked by the caller.
fn read_small_or_large(
    reader: &mut FieldReader,
    s: CodeScale,
    values: &mut [f32],
    exact: &mut [i32],
)
    requires other { s.gk ≢ 1 }
    requires there { reader.old.pos.byte + 28 ≤ length reader.old.src.now }
    requires places { (length values.old ≡ 6) × (length exact.old ≡ 6) }
    ensures reads { Takes (λ cs. tt) ((six (mant_bits s.hebap) s.gk).dec (ahead reader.old)) (Ok (tt {0})) (λ cs. Unit) reader.old reader.new }
    ensures values_after { values.new ≡ six_values s.hebap s.gk 0 (ahead reader.old) values.old }
    ensures exact_after { exact.new ≡ six_exacts s.hebap s.gk 0 (ahead reader.old) exact.old }
{
    let mut local = *reader;
    // by index, since two arrays are filled in step
    for j in 0..6 {
        let code = take_code(&mut local, s);
        values[j] = levels::value_of(levels::level_of(s, code));
        exact[j] = levels::exact_value(s, code);
    }
    *reader = local;
}

// Six codes, each bounds-checked. Where the bits run out, the values of the codes before stand in the outputs, and the
// reader is as it was.
fn read_each(
    reader: &mut FieldReader,
    s: CodeScale,
    values: &mut [f32],
    exact: &mut [i32],
) -> Result<(), Refusal>
    requires { (length values.old ≡ 6) × (length exact.old ≡ 6) }
    ensures reads { Takes (λ cs. tt) ((six (mant_bits s.hebap) s.gk).dec (ahead reader.old)) result (λ cs. Unit) reader.old reader.new }
    ensures values_after { values.new ≡ six_values s.hebap s.gk 0 (ahead reader.old) values.old }
    ensures exact_after { exact.new ≡ six_exacts s.hebap s.gk 0 (ahead reader.old) exact.old }
    ensures kept { OnErr result (reader.new ≡ reader.old) }
{
    let mut local = *reader;
    // by index, since two arrays are filled in step; that read_code copies the reader once more does not show in times
    for j in 0..6 {
        let code = read_code(&mut local, s.hebap, s.gk)?;
        values[j] = levels::value_of(levels::level_of(s, code));
        exact[j] = levels::exact_value(s, code);
    }
    *reader = local;
    Ok(())
}

// The six codes of a bin into six places. Six codes reach 24 bytes far at most (7 + 180 bits), and four bytes are read
// at once: 28 bytes ahead are bounds check enough for all.
fn read_here(
    reader: &mut FieldReader,
    s: CodeScale,
    values: &mut [f32],
    exact: &mut [i32],
) -> Result<(), Refusal>
    requires { (length values.old ≡ 6) × (length exact.old ≡ 6) }
    ensures reads { Takes (λ cs. tt) ((six (mant_bits s.hebap) s.gk).dec (ahead reader.old)) result (SixLeft s.hebap s.gk values.new exact.new) reader.old reader.new }
    ensures values_after { values.new ≡ six_values s.hebap s.gk 0 (ahead reader.old) values.old }
    ensures exact_after { exact.new ≡ six_exacts s.hebap s.gk 0 (ahead reader.old) exact.old }
    ensures kept { OnErr result (reader.new ≡ reader.old) }
{
    if !reader.has_bytes(28) {
        return read_each(reader, s, values, exact);
    }
    if s.gk == 1 {
        read_fixed(reader, s, values, exact);
    } else {
        read_small_or_large(reader, s, values, exact);
    }
    Ok(())
}

// The six codes of a bin: their f32 and exact values go to the six places from `at` on. Refuses with 8; a refusal leaves
// the reader as it was, and in the places the values of the codes that are there.
pub fn read_six(
    reader: &mut FieldReader,
    s: CodeScale,
    at: usize,
    values: &mut [f32],
    exact: &mut [i32],
) -> Result<(), Refusal>
    requires { (at + 6 ≤ length values.old) × (at + 6 ≤ length exact.old) }
    ensures reads { Takes (λ cs. tt) ((six (mant_bits s.hebap) s.gk).dec (ahead reader.old)) result
        (SixLeft s.hebap s.gk (take 6 (drop at values.new)) (take 6 (drop at exact.new))) reader.old reader.new }
    ensures values_after { values.new ≡ six_values s.hebap s.gk at (ahead reader.old) values.old }
    ensures exact_after { exact.new ≡ six_exacts s.hebap s.gk at (ahead reader.old) exact.old }
    ensures kept { OnErr result (reader.new ≡ reader.old) }
{
    read_here(reader, s, &mut values[at..at + 6], &mut exact[at..at + 6])
}

// Gk of a bin.
fn gain_of(gaqbin: i8, gain_code: u8, gaqmod: u8) -> u8
    ensures { result ≡ gain_of gaqbin gain_code gaqmod }
{
    if gaqbin == 1 {
        return gains::gain_value(gain_code, gaqmod);
    }
    1
}

// The six values of a bin: the output is written only when all six codes are there.
fn read_values(
    reader: &mut FieldReader,
    hebap: u8,
    gk: u8,
    out: &mut [f32; 6],
) -> Result<(), Refusal>
    requires { (8 ≤ hebap) × (hebap ≤ 19) }
    ensures reads { Takes (λ ys. tt) (values_read hebap gk (ahead reader.old)) result (λ ys. Unit) reader.old reader.new }
    ensures out_after { out.new ≡ scalars_after out.old (values_read hebap gk (ahead reader.old)) }
{
    let mut values = [0.0f32; 6];
    let mut exact = [0i32; 6];
    read_each(reader, levels::scale_at(hebap, gk), &mut values, &mut exact)?;
    *out = values;
    Ok(())
}

// The same for any hebap up to 19.
fn read_bin(reader: &mut FieldReader, hebap: u8, gk: u8, out: &mut [f32; 6]) -> Result<(), Refusal>
    requires { hebap ≤ 19 }
    ensures reads { Takes (λ ys. tt) (bin_read hebap gk (ahead reader.old)) result (λ ys. Unit) reader.old reader.new }
    ensures out_after { out.new ≡ scalars_after out.old (bin_read hebap gk (ahead reader.old)) }
{
    if hebap < 8 {
        *out = [0.0; 6];
        return Ok(());
    }
    read_values(reader, hebap, gk, out)
}

// Reads the six mantissas of a bin. Refuses with 12 a mode above 3, then with 4 a hebap above 19, then with 8;
// a refusal leaves the output as it was.
#[tactic(auto, using(crate::proofs::Laws::scalars_mode, crate::proofs::Laws::scalars_hebap, crate::proofs::Laws::scalars_past))]
pub fn read_scalar_aht_mantissas(
    src: &[u8],
    pos: BitPos,
    hebap: u8,
    gaqmod: u8,
    gaqbin: i8,
    gain_code: u8,
    out: &mut [f32; 6],
) -> Result<BitPos, Refusal>
    ensures value { result ≡ move_answer (8 * length src.now) (scalars_read src.now (bit_at pos) hebap gaqmod gaqbin gain_code) }
    ensures out_after { out.new ≡ scalars_after out.old (scalars_read src.now (bit_at pos) hebap gaqmod gaqbin gain_code) }
{
    if 3 < gaqmod {
        return Err(Refusal::OutOfRange);
    }
    if 19 < hebap {
        return Err(Refusal::HebapAbove19);
    }
    if !pos.has_bits(src.len(), 1, 0) {
        return Err(Refusal::InputEnds);
    }
    let gk = gain_of(gaqbin, gain_code, gaqmod);
    let mut reader = FieldReader::new(src, pos);
    read_bin(&mut reader, hebap, gk, out)?;
    Ok(reader.pos)
}
