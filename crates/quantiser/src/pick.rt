// The code that is picked for a component.
ghost use Rattle.std.specs.Prelude.{◌≡◌, ◌-◌, ◌^◌, ◌<◌, ◌≤◌, ◌≢◌};
ghost use Rattle.std.specs.Int.Signed.{mag};
ghost use Rattle.quantiser.specs.Quantise.{best_one, est_large, best_large, small_of, is_small, large_level, picked, code_level};
ghost use Rattle.tables.specs.Tables.{mant_bits};

use super::{CodeLevel, Steps, integers, probes, round};
use levels::{Code, Level};

pub fn is_small(b: u32, s: i64) -> bool
    requires { (1 ≤ b) × (b ≤ 16) }
    ensures { result ≡ is_small b s }
{
    let tag = integers::power(b - 1);
    -tag < s && s < tag
}

impl Steps {
    // Gk 1: the level whose value is nearest, of the three about the estimate.
    pub(crate) fn search_one(&self, x: f32) -> i64
        requires { self.now.gk ≡ 1 }
        ensures { result ≡ best_one self.now.hebap self.now.n x }
    {
        let top = integers::power(self.n) - 1;
        let est = if self.unit > 0.0 {
            round::round_half_away(x / self.unit)
        } else {
            0
        };
        self.search(-top, top, x, 0, est)
    }

    // Gk 2 and 4, a large code: the level 0 or -1, and as many steps on as x lies from its value.
    fn estimate_large(self, x: f32) -> i64
        requires { self.gk ≢ 1 }
        ensures { result ≡ est_large self.hebap self.gk self.n x }
    {
        let full = integers::power(self.n);
        if x >= 0.0 {
            let r = round::round_half_away((x - self.zero) / self.unit);
            r.clamp(0, full - 1)
        } else {
            let r = round::round_half_away((x - self.below) / self.unit);
            (r - 1).clamp(-full, -1)
        }
    }

    pub(crate) fn search_large(&self, x: f32) -> i64
        requires { self.now.gk ≢ 1 }
        ensures { result ≡ best_large self.now.hebap self.now.gk self.now.n x }
    {
        let full = integers::power(self.n);
        let est = self.estimate_large(x);
        self.search(-full, full - 1, x, est, est)
    }

    // Gk 2 and 4, a small code.
    pub(crate) fn small_level(self, x: f32) -> i64
        ensures { result ≡ small_of (mant_bits self.hebap - 1) x }
    {
        round::round_half_away(x * self.whole)
    }

    // The level k as a large code.
    fn large_code(self, k: i64) -> CodeLevel
        requires { mag k < 2 ^ self.n }
        ensures { result ≡ code_level (large_level self.hebap self.gk self.large k) }
    {
        CodeLevel {
            code: Code::Large(integers::to_bits(k, self.large)),
            level: Level::Large(probes::value(self.remap, self.part, k)),
        }
    }

    // The code for x and its level.
    #[tactic(auto, using(tables::proofs::Rules::mant_bits_lem))]
    pub(crate) fn pick(&self, x: f32) -> CodeLevel
        ensures { result ≡ code_level (picked self.now.hebap self.now.gk x) }
    {
        if self.gk == 1 {
            return self.large_code(self.search_one(x));
        }
        let s = self.small_level(x);
        if is_small(self.small, s) {
            return CodeLevel {
                code: Code::Small(integers::to_bits(s, self.small)),
                level: Level::Small(levels::divided_code(s as i32, levels::mant(self.hebap) - 1)),
            };
        }
        self.large_code(self.search_large(x))
    }
}
