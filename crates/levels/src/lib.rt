// The levels of a scalar mantissa: its codes, and their f32 and exact values.
#![tactic(auto)]

ghost use Rattle.std.specs.Prelude.{◌≡◌, false, cond, not, ◌+◌, ◌-◌, ◌*◌, ◌<◌, ◌≤◌, ◌^◌, eqb, pos, nat_abs, ◌+ℤ◌, ◌*ℤ◌, get_or};
ghost use Rattle.std.specs.Float.Ieee.{of_bits, nan_bits};
ghost use Rattle.std.specs.Float.{binary32};
ghost use Rattle.std.specs.Int.Signed.{mag};
ghost use Rattle.tables.specs.Tables.{mant_bits};
ghost use Rattle.levels.specs.Component.{too_large, some_too_large};
ghost use Rattle.levels.specs.Codes.{signed, small_bits, large_bits, code_bits, Accepted};
ghost use Rattle.levels.specs.Exact.{slope, offset_by_sign, exact_of};
ghost use Rattle.levels.specs.Value.{q15, power, gaq_remap, level_of, divided, value_in, value_of};
ghost use Rattle.levels.specs.Work.{remap_of, remap_by, IsScale, row_of, AreScales};

mod consts;

// A code by its bits: a small one, or a large one (behind the tag at Gk 2 and 4; at Gk 1 every code is large).
#[derive(Clone, Copy)]
pub enum Code {
    Small(u32),
    Large(u32),
}

// The kind of a code and its f32 value.
#[derive(Clone, Copy)]
pub enum Level {
    Small(f32),
    Large(f32),
}

pub fn mant(hebap: u8) -> u32
    ensures { result ≡ mant_bits hebap }
{
    tables::mant_bits(hebap) as u32
}

pub fn small_bits(m: u32, gk: u8) -> u32
    requires { 3 ≤ m }
    ensures { result ≡ small_bits m gk }
{
    if gk == 2 { m - 1 } else { m - 2 }
}

pub fn large_bits(m: u32, gk: u8) -> u32
    requires { 3 ≤ m }
    ensures { result ≡ large_bits m gk }
{
    if gk == 2 { m - 1 } else { m }
}

// How many bits a code takes, its tag with it.
#[tactic(auto, using(tables::proofs::Rules::mant_bits_lem, crate::proofs::Signed::small_width, crate::proofs::Signed::large_width))]
pub fn code_bits(hebap: u8, gk: u8, code: Code) -> u32
    requires { (8 ≤ hebap) × (hebap ≤ 19) }
    ensures { result ≡ code_bits (mant_bits hebap) gk code }
{
    let m = mant(hebap);
    match code {
        Code::Small(_) => small_bits(m, gk),
        Code::Large(_) => {
            if gk == 1 {
                return m;
            }
            small_bits(m, gk) + large_bits(m, gk)
        }
    }
}

// Two's complement of w bits, for which std has no method.
fn signed_code(u: u32, w: u32) -> i32
    requires { (1 ≤ w) × (w ≤ 16) × (u < 2 ^ w) }
    ensures { result ≡ signed w u }
{
    if u < bits::pow2(w - 1) {
        u as i32
    } else {
        (u as i32) - (bits::pow2(w) as i32)
    }
}

// The greatest size of a component.
pub const LARGEST_SIZE: f32 = 16384.0;

// Whether a component is accepted: no NaN, and not too large.
pub fn in_range(x: f32) -> bool
    ensures { result ≡ not (too_large x) }
{
    -LARGEST_SIZE <= x && x <= LARGEST_SIZE
}

// Whether some component is not accepted. No early exit, so that the loop is vectorised.
pub fn any_too_large(x: &[f32]) -> bool
    ensures { result ≡ some_too_large x.now }
{
    let mut found = false;
    for &component in x {
        if !in_range(component) {
            found = true;
        }
    }
    found
}

// ---- f32 values

pub fn scale(n: u32) -> f32
    requires { n ≤ 16 }
    ensures { result ≡ power n }
{
    bits::pow2(n) as f32
}

pub fn divided_code(k: i32, n: u32) -> f32
    requires k_bound { mag k < 2 ^ 24 }
    requires n_bound { n ≤ 16 }
    ensures { result ≡ divided n k }
{
    k as f32 / scale(n)
}

pub fn q15(v: i16) -> f32
    ensures { result ≡ q15 v }
{
    v as f32 / 32768.0
}

fn slope_at(hebap: u8, gk: u8) -> i16
    ensures { result ≡ slope hebap gk }
{
    if gk == 1 {
        return tables::gaq_remap_at(hebap, 0);
    }
    if gk == 2 {
        return tables::gaq_remap_at(hebap, 1);
    }
    tables::gaq_remap_at(hebap, 4)
}

// b, by the sign of the number.
fn offset_by_sign(hebap: u8, gk: u8, below: bool) -> i16
    ensures { result ≡ offset_by_sign hebap gk below }
{
    if gk == 1 {
        return 0;
    }
    if gk == 2 {
        if below {
            return tables::gaq_remap_at(hebap, 3);
        }
        return tables::gaq_remap_at(hebap, 2);
    }
    if below {
        return tables::gaq_remap_at(hebap, 6);
    }
    tables::gaq_remap_at(hebap, 5)
}

// a, and b by the sign of the number, of a hebap and a gain, as fractions.
#[derive(Clone, Copy)]
pub struct Remap {
    pub a: f32,
    pub up: f32,
    pub below: f32,
}

// Computed once where many numbers are remapped: a look into the table walks through it.
pub fn remap_of(hebap: u8, gk: u8) -> Remap
    ensures { result ≡ remap_of hebap gk }
{
    Remap {
        a: q15(slope_at(hebap, gk)),
        up: q15(offset_by_sign(hebap, gk, false)),
        below: q15(offset_by_sign(hebap, gk, true)),
    }
}

pub fn remap_by(r: Remap, x: f32) -> f32
    ensures { result ≡ remap_by r x }
{
    let b = if x >= 0.0 { r.up } else { r.below };
    x + r.a * x + b
}

// The remap of Table E3.6: y = x + a x + b, each operation rounded once. As in the Rust, a gain other than 1 and 2
// has the column of Gk 4.
pub fn gaq_remap(hebap: u8, gk: u8, x: f32) -> f32
    ensures { result ≡ gaq_remap hebap gk x }
{
    remap_by(remap_of(hebap, gk), x)
}

// The f32 that a level carries.
pub fn value_of(level: Level) -> f32
    ensures { result ≡ value_in level }
{
    match level {
        Level::Small(y) => y,
        Level::Large(y) => y,
    }
}

// ---- exact values, in units of 2^-30: every step fits an i32

fn times(x: i32, y: i32) -> i32
    requires { nat_abs x * nat_abs y < 2 ^ 31 }
    ensures { result ≡ x *ℤ y }
{
    x * y
}

// ---- many codes of one hebap and gain

// What they have in common: the remap; the bits of small and of large codes; the fractions 1 / 2^(m-1) and, for
// large codes, 1 / 2^(bits - 1); the exact value of a step of each, and of b by the sign of the number.
#[derive(Clone, Copy)]
pub struct CodeScale {
    pub hebap: u8,
    pub gk: u8,
    pub remap: Remap,
    pub small: u32,
    pub large: u32,
    pub small_part: f32,
    pub large_part: f32,
    pub small_unit: i32,
    pub large_unit: i32,
    pub up: i32,
    pub below: i32,
    pub ghost known: { (8 ≤ hebap) × (hebap ≤ 19) },
    pub ghost is: { IsScale hebap gk remap small large small_part large_part small_unit large_unit up below },
}

// The scales of all hebaps and gains, a row each: computing a scale takes longer than reading a bin.
pub fn scales() -> &'static [[u32; 11]; 36]
    ensures { AreScales result.now }
{
    &consts::SCALES
}

// The number k of a row, as a fraction and as a whole number.
fn fraction(row: &[u32; 11], k: usize) -> f32
    requires k_bound { k < 11 }
    requires k_value { nan_bits binary32 (get_or row.now k 0) ≡ false }
    ensures { result ≡ of_bits binary32 (get_or row.now k 0) }
{
    f32::from_bits(row[k])
}

fn whole(row: &[u32; 11], k: usize) -> i32
    requires k_bound { k < 11 }
    requires k_value { get_or row.now k 0 < 2 ^ 31 }
    ensures { result ≡ pos (get_or row.now k 0) }
{
    row[k] as i32
}

// Which row a hebap and a gain have.
fn row_of(hebap: u8, gk: u8) -> usize
    requires { (8 ≤ hebap) × (hebap ≤ 19) }
    ensures { result ≡ row_of hebap gk }
{
    let i = 3 * (hebap as usize - 8);
    if gk == 1 {
        return i;
    }
    if gk == 2 {
        return i + 1;
    }
    i + 2
}

// The scale of a hebap and a gain, out of the table.
pub fn scale_at(hebap: u8, gk: u8) -> CodeScale
    requires { (8 ≤ hebap) × (hebap ≤ 19) }
    ensures { (result.hebap ≡ hebap) × (result.gk ≡ gk) }
{
    let row = &scales()[row_of(hebap, gk)];
    CodeScale {
        hebap,
        gk,
        remap: Remap {
            a: fraction(row, 0),
            up: fraction(row, 1),
            below: fraction(row, 2),
        },
        small: row[5],
        large: row[6],
        small_part: fraction(row, 3),
        large_part: fraction(row, 4),
        small_unit: whole(row, 7),
        large_unit: whole(row, 8),
        up: whole(row, 9),
        below: -whole(row, 10),
    }
}

// The kind and the f32 value of a code.
pub fn level_of(s: CodeScale, code: Code) -> Level
    requires accepted { Accepted s.hebap s.gk code }
    ensures { result ≡ level_of s.hebap s.gk code }
{
    match code {
        Code::Small(u) => Level::Small(signed_code(u, s.small) as f32 * s.small_part),
        Code::Large(u) => {
            Level::Large(remap_by(s.remap, signed_code(u, s.large) as f32 * s.large_part))
        }
    }
}

// The exact value of a code.
pub fn exact_value(s: CodeScale, code: Code) -> i32
    requires accepted { Accepted s.hebap s.gk code }
    ensures { result ≡ exact_of s.hebap s.gk code }
{
    match code {
        Code::Small(u) => times(signed_code(u, s.small), s.small_unit),
        Code::Large(u) => {
            let k = signed_code(u, s.large);
            let b = if k < 0 { s.below } else { s.up };
            times(k, s.large_unit) + b
        }
    }
}

// ---- codes of Gk 1: all are large and b is 0, so no branch goes by their sign

pub fn fixed_value(s: CodeScale, u: u32) -> f32
    requires gk_value { s.gk ≡ 1 }
    requires accepted { Accepted s.hebap s.gk (Code.Large u) }
    ensures { result ≡ value_of s.hebap s.gk (Code.Large u) }
{
    let x = signed_code(u, s.large) as f32 * s.large_part;
    x + s.remap.a * x + s.remap.up
}

pub fn fixed_exact(s: CodeScale, u: u32) -> i32
    requires gk_value { s.gk ≡ 1 }
    requires accepted { Accepted s.hebap s.gk (Code.Large u) }
    ensures { result ≡ exact_of s.hebap s.gk (Code.Large u) }
{
    times(signed_code(u, s.large), s.large_unit)
}
