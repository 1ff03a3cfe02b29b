// The levels that are probed, and the best of them.
ghost use Rattle.std.specs.Prelude.{◌≡◌, ◌^◌, ◌<◌};
ghost use Rattle.std.specs.Int.Signed.{mag, ◌≤ℤ◌};
ghost use Rattle.quantiser.specs.Quantise.{probed, best_of};
ghost use Rattle.quantiser.specs.Work.{level_by};

use super::{Best, Steps};
use levels::Remap;

// The f32 of the level k, where part is 1 / 2^n and 2^n full scale.
pub fn value(remap: Remap, part: f32, k: i64) -> f32
    requires { mag k < 2 ^ 24 }
    ensures { result ≡ level_by remap part k }
{
    levels::remap_by(remap, k as i32 as f32 * part)
}

impl Steps {
    fn probe(self, lo: i64, hi: i64, x: f32, z: i64, best: Best) -> Best
        requires { (lo ≤ℤ hi) × (mag lo < 2 ^ 24) × (mag hi < 2 ^ 24) }
        ensures { result ≡ probed self.hebap self.gk self.n lo hi x z best }
    {
        let k = z.clamp(lo, hi);
        let e = (value(self.remap, self.part, k) - x).abs();
        if e < best.e { Best { k, e } } else { best }
    }

    // The first of est - 1, est and est + 1 with the least error.
    pub(crate) fn search(self, lo: i64, hi: i64, x: f32, start: i64, est: i64) -> i64
        requires { (lo ≤ℤ hi) × (mag lo < 2 ^ 24) × (mag hi < 2 ^ 24) × (mag start < 2 ^ 24) × (mag est < 2 ^ 40) }
        ensures { result ≡ best_of self.hebap self.gk self.n lo hi x start est }
    {
        let first = Best {
            k: start,
            e: f32::from_bits(0x7f80_0000),
        };
        let b = self.probe(lo, hi, x, est - 1, first);
        let c = self.probe(lo, hi, x, est, b);
        let d = self.probe(lo, hi, x, est + 1, c);
        d.k
    }
}
