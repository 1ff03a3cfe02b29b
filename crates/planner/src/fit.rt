// The gains of a plan that is given, and the bits of its bins.
ghost use Rattle.std.specs.Prelude.{◌≡◌};
ghost use Rattle.channel.specs.Bins.{sum_over, some_over};
ghost use Rattle.planner.specs.Choice.{chosen_at};
ghost use Rattle.planner.specs.Fit.{wrong_gain};

use super::one_bin;
use super::vectors::BinVectors;

pub fn any_wrong(mode: u8, gains: &[u8], count: usize) -> bool
    ensures { result ≡ some_over (wrong_gain mode gains.now) 0 count }
{
    (0..count).any(|i| !gains::is_allowed(mode, channel::gain_at(gains, i)))
}

// The bits of the bins at the gains that were chosen.
pub fn chosen_bits(v: BinVectors, mode: u8, gains: &[u8]) -> u32
    ensures { result ≡ sum_over (chosen_at mode gains.now v.entry.bins.row.now v.entry.x.now v.entry.bins.start) v.entry.bins.start v.entry.bins.end }
{
    let mut n: usize = 0;
    let mut bits: u32 = 0;
    for bin in v.bins.start..v.bins.end {
        let hebap = v.bins.row[bin];
        bits += one_bin::bin_bits(mode, hebap, channel::gain_at(gains, n), v.six(bin));
        n += channel::gains_used(mode, hebap);
    }
    bits
}
