// Rounding to the nearest whole number.
ghost use Rattle.std.specs.Prelude.{◌≡◌, T, from_bits};
ghost use Rattle.std.specs.Float.{binary32};
ghost use Rattle.std.specs.Float.Ieee.{lt};
ghost use Rattle.quantiser.specs.Round.{round_mag, round_away};

// For x above zero. x + x is exact, so that truncating it loses nothing that rounding needs.
pub fn magnitude(x: f32) -> u64
    requires { T (lt (from_bits binary32 0) x) }
    ensures { result ≡ round_mag x }
{
    if x < 2147483648.0 {
        (std::num::truncating_f32_to_u64(x + x) + 1) / 2
    } else {
        2147483648
    }
}

// To the nearest integer, halves away from zero, clamped to an i32; 0 for a NaN. Both signs take one path.
pub fn round_half_away(x: f32) -> i64
    ensures { result ≡ round_away x }
{
    let a = x.abs();
    if a > 0.0 {
        let n = magnitude(a);
        if x < 0.0 {
            0 - (n as i64)
        } else {
            if n < 2147483648 { n as i64 } else { 2147483647 }
        }
    } else {
        0
    }
}
