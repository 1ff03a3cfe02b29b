// Levels as integers: i64 leaves room for an estimate and one more.
ghost use Rattle.std.specs.Prelude.{◌≡◌, ◌^◌, ◌<◌, ◌≤◌, pos};
ghost use Rattle.std.specs.Int.Signed.{mag};
ghost use Rattle.quantiser.specs.Quantise.{to_bits};

// 2^n
pub fn power(n: u32) -> i64
    requires { n ≤ 16 }
    ensures { result ≡ pos (2 ^ n) }
{
    i64::from(bits::pow2(n))
}

// Two's complement of n bits, for which std has no method.
pub fn to_bits(v: i64, n: u32) -> u32
    requires n_bound { n ≤ 16 }
    requires v_bound { mag v < 2 ^ n }
    ensures { result ≡ to_bits n v }
{
    if v < 0 {
        (power(n) + v) as u32
    } else {
        v as u32
    }
}
