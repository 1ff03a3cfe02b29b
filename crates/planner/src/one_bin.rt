// The bits of a bin, by the size of its components alone.
ghost use Rattle.std.specs.Prelude.{◌≡◌, cond, ◌≤◌, length};
ghost use Rattle.gains.specs.Gains.{active};
ghost use Rattle.quantiser.specs.Quantise.{codes_bits};
ghost use Rattle.planner.specs.Cost.{bin_bits};
ghost use Rattle.planner.specs.Work.{size_of, limits_of, tagged_bits, CostsOf, plain_bits};

use super::Limits;
use super::costs::Costs;

fn limits_for(hebap: u8) -> Limits
    requires { (8 ≤ hebap) × (hebap ≤ 16) }
    ensures { result ≡ limits_of hebap }
{
    match hebap {
        8 => Limits {
            two: 0.375,
            four: 0.125,
        },
        9 => Limits {
            two: 0.4375,
            four: 0.1875,
        },
        10 => Limits {
            two: 0.46875,
            four: 0.21875,
        },
        11 => Limits {
            two: 0.484375,
            four: 0.234375,
        },
        12 => Limits {
            two: 0.4921875,
            four: 0.2421875,
        },
        13 => Limits {
            two: 0.49609375,
            four: 0.24609375,
        },
        14 => Limits {
            two: 0.498046875,
            four: 0.248046875,
        },
        15 => Limits {
            two: 0.4990234375,
            four: 0.2490234375,
        },
        _ => Limits {
            two: 0.49951171875,
            four: 0.24951171875,
        },
    }
}

// The size of x. std's abs has a second comparison, for -0, with which the loop below takes a quarter longer.
fn size(x: f32) -> f32
    ensures { result ≡ size_of x }
{
    if x < 0.0 { -x } else { x }
}

// Six codes of the bits small, and large more behind each tag. How many take the tag is counted, which the machine does
// for several together. The six are lent as a slice, here and below: of an array a proof does not get that each is an
// f32.
#[tactic(auto, using(crate::proofs::Steps::tagged_most, crate::proofs::Steps::product_most, channel::proofs::Over::one_small))]
fn tagged_bits(x: &[f32], limit: f32, small: u32, large: u32) -> u32
    requires six { length x.now ≡ 6 }
    requires small_bound { (small ≤ 16) × (large ≤ 16) }
    ensures { result ≡ tagged_bits x.now limit small large }
{
    let mut n: u32 = 0;
    for &component in x {
        n += u32::from(size(component) >= limit);
    }
    6 * small + n * large
}

// The bits of six components at each gain.
#[tactic(auto, using(crate::proofs::Steps::width, crate::proofs::Steps::costs_few, crate::proofs::Steps::costs_are))]
pub fn gain_costs(hebap: u8, x: &[f32]) -> Costs
    requires le_hebap { (8 ≤ hebap) × (hebap ≤ 16) }
    requires six { length x.now ≡ 6 }
    ensures { CostsOf hebap x.now result }
{
    let m = levels::mant(hebap);
    let l = limits_for(hebap);
    Costs {
        one: 6 * m,
        two: tagged_bits(x, l.two, m - 1, m - 1),
        four: tagged_bits(x, l.four, m - 2, m),
    }
}

// The bits of a bin that is active in no mode.
pub fn plain_bits(hebap: u8) -> u32
    ensures { result ≡ plain_bits hebap }
{
    if hebap <= 7 {
        return tables::vq_bits(hebap) as u32;
    }
    6 * levels::mant(hebap)
}

// The bits of six components at one gain.
#[tactic(auto, using(crate::proofs::Steps::width, crate::proofs::Steps::bits_1, crate::proofs::Steps::bits_2, crate::proofs::Steps::bits_4))]
fn gain_bits(hebap: u8, x: &[f32], gain: u8) -> u32
    requires le_hebap { (8 ≤ hebap) × (hebap ≤ 16) }
    requires six { length x.now ≡ 6 }
    ensures { result ≡ codes_bits hebap gain x.now }
{
    let m = levels::mant(hebap);
    let l = limits_for(hebap);
    match gain {
        1 => 6 * m,
        2 => tagged_bits(x, l.two, m - 1, m - 1),
        _ => tagged_bits(x, l.four, m - 2, m),
    }
}

// The bits of a bin, at the gain where it is active. gain_costs is left to tally_bins alone, so that the compiler puts
// it into that loop in place of a call: with a call of it here, plan took 9 % longer.
pub fn bin_bits(mode: u8, hebap: u8, gain: u8, x: &[f32; 6]) -> u32
    ensures { result ≡ bin_bits hebap (cond (active mode hebap) gain 1) x.now }
{
    if gains::is_active(mode, hebap) {
        return gain_bits(hebap, x, gain);
    }
    plain_bits(hebap)
}
