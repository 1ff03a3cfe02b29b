// The quantiser: which code is picked for a mantissa. The operations are the Rust's, but that the levels of large codes
// are multiplied by 1 / 2^n where the Rust divides by 2^n, which is proved to give the same f32.
#![tactic(auto)]

ghost use Rattle.std.specs.Prelude.{◌≡◌, ◌-◌, ◌≤◌, pos, negsuc};
ghost use Rattle.std.specs.Coded.{Coded-set};
ghost use Rattle.std.specs.Float.{binary32};
ghost use Rattle.std.specs.Float.Ieee.{div};
ghost use Rattle.quantiser.specs.Quantise.{picked, allowed, quantised, bin_values, codes_bits, error_from, bin_picked, no_bin, quantised_bin};
ghost use Rattle.quantiser.specs.Work.{exponent_of, level_by, unit_by};
ghost use Rattle.tables.specs.Tables.{mant_bits};
ghost use Rattle.levels.specs.Codes.{small_bits, large_bits, code_bits};
ghost use Rattle.levels.specs.Work.{remap_of, word_of};
ghost use Rattle.levels.specs.Value.{f0, f1, power};

use answers::Refusal;
use levels::{Code, Level, Remap};

mod integers;
mod pick;
mod probes;
mod reals;
mod round;

// The six values of a bin, its bits and the sum of its squared errors.
#[derive(Clone, Copy)]
pub struct QuantisedBin {
    pub values: [f32; 6],
    pub bits: u32,
    pub err: f32,
}

// The zeros that stand beside a refusal: what `unwrap_or_default` gives of a refused call.
impl Default for QuantisedBin {
    ghost is_default = { λ b. b ≡ no_bin };

    fn default() -> QuantisedBin {
        QuantisedBin {
            values: [0.0; 6],
            bits: 0,
            err: 0.0,
        }
    }
}

// The bits of a bin and the sum of its squared errors.
#[derive(Clone, Copy)]
pub struct Sums {
    pub bits: u32,
    pub err: f32,
}

// A code and its level.
#[derive(Clone, Copy)]
pub struct CodeLevel {
    pub code: Code,
    pub level: Level,
}

// What a hebap and a gain fix, computed once for many components: the remap; n, where 2^n is full scale of the large
// codes (at Gk 1 of all), and 1 / 2^n; the step of the estimate; the values of the levels 0 and -1; full scale and
// the bits of the small codes, and the bits of the large ones. Lent to what is called for each component: a copy for
// each of them makes quantise_bin a quarter slower.
#[derive(Clone, Copy)]
pub struct Steps {
    pub hebap: u8,
    pub gk: u8,
    pub remap: Remap,
    pub n: u32,
    pub part: f32,
    pub unit: f32,
    pub zero: f32,
    pub below: f32,
    pub whole: f32,
    pub small: u32,
    pub large: u32,
    pub ghost in_range: { (8 ≤ hebap) × (hebap ≤ 19) },
    pub ghost remap_is: { remap ≡ remap_of hebap gk } by { Coded-set remap-code remap (remap_of hebap gk) },
    pub ghost n_is: { n ≡ exponent_of hebap gk },
    pub ghost part_is: { part ≡ div binary32 f1 (power n) },
    pub ghost unit_is: { unit ≡ unit_by remap part gk },
    pub ghost zero_is: { zero ≡ level_by remap part (pos 0) },
    pub ghost below_is: { below ≡ level_by remap part (negsuc 0) },
    pub ghost whole_is: { whole ≡ power (mant_bits hebap - 1) },
    pub ghost small_is: { small ≡ small_bits (mant_bits hebap) gk },
    pub ghost large_is: { large ≡ large_bits (mant_bits hebap) gk },
}

// A code as one number, its tag with it, and how many bits that has.
#[derive(Clone, Copy)]
pub struct CodeWord {
    pub bits: u32,
    pub width: u32,
}

// The best level so far and its error.
#[derive(Clone, Copy)]
pub struct Best {
    pub k: i64,
    pub e: f32,
}

// ---- what a hebap and a gain fix

// The step of the estimate: at Gk 1 the value of the level 1, else what the levels 1 and 0 differ by.
fn unit(remap: Remap, part: f32, gk: u8) -> f32
    ensures { result ≡ unit_by remap part gk }
{
    if gk == 1 {
        return levels::remap_by(remap, part);
    }
    reals::at_least(probes::value(remap, part, 1) - probes::value(remap, part, 0))
}

impl Steps {
    pub fn new(hebap: u8, gk: u8) -> Steps
        requires { (8 ≤ hebap) × (hebap ≤ 19) }
        ensures { (result.hebap ≡ hebap) × (result.gk ≡ gk) }
    {
        let m = levels::mant(hebap);
        let large = levels::large_bits(m, gk);
        let n = large - 1;
        let remap = levels::remap_of(hebap, gk);
        let part = 1.0 / levels::scale(n);
        Steps {
            hebap,
            gk,
            remap,
            n,
            part,
            unit: unit(remap, part, gk),
            zero: probes::value(remap, part, 0),
            below: probes::value(remap, part, -1),
            whole: levels::scale(m - 1),
            small: levels::small_bits(m, gk),
            large,
        }
    }

    // The code that is picked for x as one number, its tag with it.
    pub fn word(&self, x: f32) -> CodeWord
        ensures bits_value { result.bits ≡ word_of (mant_bits self.now.hebap) self.now.gk (picked self.now.hebap self.now.gk x).0 }
        ensures width_value { result.width ≡ code_bits (mant_bits self.now.hebap) self.now.gk (picked self.now.hebap self.now.gk x).0 }
    {
        if self.gk == 1 {
            let k = self.search_one(x);
            return CodeWord {
                bits: integers::to_bits(k, self.large),
                width: self.large,
            };
        }
        let s = self.small_level(x);
        if pick::is_small(self.small, s) {
            return CodeWord {
                bits: integers::to_bits(s, self.small),
                width: self.small,
            };
        }
        let k = self.search_large(x);
        CodeWord {
            bits: bits::pow2(self.small - 1) * bits::pow2(self.large)
                + integers::to_bits(k, self.large),
            width: self.small + self.large,
        }
    }
}

fn allows(hebap: u8, gk: u8) -> bool
    ensures { result ≡ allowed hebap gk }
{
    if hebap < 8 {
        return false;
    }
    if 19 < hebap {
        return false;
    }
    if gk == 1 {
        return true;
    }
    if 16 < hebap {
        return false;
    }
    if gk == 2 {
        return true;
    }
    gk == 4
}

// The code for x at the hebap and the gain. Refuses with 11, then 5.
pub fn quantise_scalar(hebap: u8, gk: u8, x: f32) -> Result<CodeLevel, Refusal>
    ensures { result ≡ quantised hebap gk x }
{
    if !allows(hebap, gk) {
        return Err(Refusal::NoQuantiser);
    }
    if !levels::in_range(x) {
        return Err(Refusal::Component);
    }
    Ok(Steps::new(hebap, gk).pick(x))
}

// ---- a bin

impl Steps {
    // How many bits a code takes, its tag with it: as levels' code_bits, by what the steps have worked out.
    fn code_bits(&self, code: Code) -> u32
        ensures { result ≡ code_bits (mant_bits self.now.hebap) self.now.gk code }
    {
        match code {
            Code::Small(_) => self.small,
            Code::Large(_) => {
                if self.gk == 1 {
                    return self.large;
                }
                self.small + self.large
            }
        }
    }

    // The values of x, their bits and the sum of their squared errors, in order.
    fn fill(&self, x: &[f32; 6], values: &mut [f32; 6]) -> Sums
        ensures { (values.new ≡ bin_values self.now.hebap self.now.gk x.now) × (result.bits ≡ codes_bits self.now.hebap self.now.gk x.now)
            × (result.err ≡ error_from self.now.hebap self.now.gk f0 x.now) }
    {
        let mut bits: u32 = 0;
        let mut err: f32 = 0.0;
        for (j, &component) in x.iter().enumerate() {
            let CodeLevel { code, level } = self.pick(component);
            let y = levels::value_of(level);
            let d = y - component;
            bits += self.code_bits(code);
            err += d * d;
            values[j] = y;
        }
        Sums { bits, err }
    }

    // A bin that is not refused.
    fn bin(&self, x: &[f32; 6]) -> QuantisedBin
        ensures { result ≡ bin_picked self.now.hebap self.now.gk x.now }
    {
        let mut values = [0.0f32; 6];
        let sums = self.fill(x, &mut values);
        QuantisedBin {
            values,
            bits: sums.bits,
            err: sums.err,
        }
    }
}

// The six values of x at the hebap and the gain, their bits and summed squared errors. Refuses with 11, then 5.
pub fn quantise_bin(hebap: u8, gk: u8, x: &[f32; 6]) -> Result<QuantisedBin, Refusal>
    ensures { result ≡ quantised_bin hebap gk x.now }
{
    if !allows(hebap, gk) {
        return Err(Refusal::NoQuantiser);
    }
    if levels::any_too_large(x) {
        return Err(Refusal::Component);
    }
    Ok(Steps::new(hebap, gk).bin(x))
}
