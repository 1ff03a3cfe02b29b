// What is kept of each mode while the bins are gone through, and the mode of least payload.
ghost use Rattle.std.specs.Prelude.{◌≡◌, ℕ, ◌+◌, ◌<◌, ◌≤◌, length, replicate};
ghost use Rattle.planner.specs.Choice.{least_up_to};
ghost use Rattle.planner.specs.Work.{no_tally, tally_at, with_bin, Small, AllSmall, TalliesOf, AllFew, payload_in, payload_at};

use super::costs::Costs;
use super::one_bin;
use super::vectors::BinVectors;

// One mode: the bits of the bins of hebap 8 to 16, how many of them are active, and their gains, then zeros.
#[derive(Clone, Copy)]
pub struct Tally {
    pub bits: u32,
    pub count: u32,
    pub gains: [u8; 256],
}

impl Tally {
    #[tactic(auto, unfolding(crate::specs::Work::no_tally))]
    pub fn new() -> Tally
        ensures { result ≡ no_tally }
    {
        Tally {
            bits: 0,
            count: 0,
            gains: channel::no_gains(),
        }
    }

    // One bin more: its bits at the cheapest gain, and where it is active that gain behind the gains before it.
    #[tactic(auto, using(crate::proofs::Steps::cost_small))]
    fn add(&mut self, mode: u8, hebap: u8, c: Costs)
        requires { Small self.old }
        ensures { self.new ≡ with_bin mode hebap c self.old }
    {
        if gains::is_active(mode, hebap) {
            let gain = c.best_gain(mode);
            self.gains[self.count as usize] = gain;
            self.count += 1;
            self.bits += c.at(gain);
        } else {
            self.bits += c.one;
        }
    }

    // What the mode costs; plain is the bits of the bins that are active in no mode.
    pub fn payload(&self, plain: u32, mode: u8) -> u32
        requires { (plain + self.now.bits ≤ 65536) × (self.now.count ≤ 256) }
        ensures { result ≡ payload_in plain mode self.now }
    {
        plain + self.bits + gains::gain_word_bits(mode, self.count)
    }
}

// One bin in every mode.
fn tally_bin(hebap: u8, c: Costs, tallies: &mut [Tally; 4])
    requires { AllSmall tallies.old }
    ensures { (m : ℕ) → m ≤ 3 → tally_at tallies.new m ≡ with_bin m hebap c (tally_at tallies.old m) }
{
    for (mode, tally) in tallies.iter_mut().enumerate() {
        tally.add(mode as u8, hebap, c);
    }
}

// All bins; returns the bits of those that are active in no mode. The costs of a bin are counted once for all modes.
pub fn tally_bins(v: BinVectors, tallies: &mut [Tally; 4]) -> u32
    requires { tallies.old ≡ replicate 4 no_tally }
    ensures { TalliesOf v.entry.bins.row.now v.entry.x.now v.entry.bins.start v.entry.bins.end result tallies.new }
{
    let mut plain: u32 = 0;
    for bin in v.bins.start..v.bins.end {
        let hebap = v.bins.row[bin];
        match hebap {
            8..=16 => {
                let c = one_bin::gain_costs(hebap, v.six(bin));
                tally_bin(hebap, c, &mut *tallies);
            }
            _ => {
                plain += one_bin::plain_bits(hebap);
            }
        }
    }
    plain
}

// The mode of least payload, the lowest of equals. By the mode, since a turn reads two tallies: its own and the best.
pub fn best_mode(plain: u32, tallies: &[Tally; 4]) -> u8
    requires { AllFew plain tallies.now }
    ensures { result ≡ least_up_to (payload_at plain tallies.now) 3 }
{
    let mut best: u8 = 0;
    for mode in 1..4 {
        let next = tallies[mode as usize].payload(plain, mode);
        let least = tallies[best as usize].payload(plain, best);
        if next < least {
            best = mode;
        }
    }
    best
}
