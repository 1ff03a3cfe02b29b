// A whole field: the mode, the gain words, the bins.
ghost use Rattle.std.specs.Prelude.{◌≤◌};
ghost use Rattle.bits.specs.Format.{each};
ghost use Rattle.bits.specs.Takes.{ahead, Takes};
ghost use Rattle.channel.specs.Field.{lenient, item, bins_of, behind_mode, field};
ghost use Rattle.channel.specs.Shown.{bins_in};
ghost use Rattle.reader.specs.Work.{BinsPut, GainsPut, head_behind, head_of};

use super::scratch::Scratch;
use super::{FieldHead, gain_words, one_bin};
use answers::Refusal;
use bits::field_reader::FieldReader;
use channel::bins::Bins;

// The bins: values, exact values and indices go to the bins' places.
pub fn read_bins(
    reader: &mut FieldReader,
    mode: u8,
    bins: Bins,
    gains: &[u8],
    scratch: &mut Scratch,
) -> Result<(), Refusal>
    ensures { Takes (λ xs. tt {0}) ((each (item lenient) (bins_of mode gains.now bins.entry.row.now bins.entry.start bins.entry.end)).dec (ahead reader.old)) result
        (BinsPut bins.entry.start (bins_of mode gains.now bins.entry.row.now bins.entry.start bins.entry.end) scratch.old scratch.new) reader.old reader.new }
{
    let mut n: usize = 0;
    for bin in bins.start..bins.end {
        let hebap = bins.hebap(bin);
        let gk = channel::gain_at(gains, n);
        n += channel::gains_used(mode, hebap);
        one_bin::read_bin(reader, mode, hebap, gk, bin, &mut *scratch)?;
    }
    Ok(())
}

// The gain words and the bins, behind the two bits of the mode.
#[tactic(auto, using(channel::proofs::Rows::count_most))]
pub fn read_behind(
    reader: &mut FieldReader,
    mode: u8,
    bins: Bins,
    gains: &mut [u8; 256],
    scratch: &mut Scratch,
) -> Result<FieldHead, Refusal>
    requires { mode ≤ 3 }
    ensures { Takes (head_behind mode) ((behind_mode lenient bins.entry.row.now bins.entry.start bins.entry.end mode).dec (ahead reader.old)) result
        (λ c. GainsPut gains.old gains.new c.0
        × BinsPut bins.entry.start (bins_of mode c.0 bins.entry.row.now bins.entry.start bins.entry.end) scratch.old scratch.new c.1)
        reader.old reader.new }
{
    let count = bins.count_active(mode);
    gain_words::read_gains(reader, mode, &mut gains[..count])?;
    read_bins(reader, mode, bins, &gains[..count], scratch)?;
    Ok(FieldHead { mode, count })
}

// A whole field: the gains go to the front of theirs, the rest to the bins' places.
pub fn read_field(
    reader: &mut FieldReader,
    bins: Bins,
    gains: &mut [u8; 256],
    scratch: &mut Scratch,
) -> Result<FieldHead, Refusal>
    ensures { Takes head_of ((field bins.entry.row.now bins.entry.start bins.entry.end).dec (ahead reader.old)) result
        (λ c. GainsPut gains.old gains.new c.gains
        × BinsPut bins.entry.start (bins_in bins.entry.row.now bins.entry.start bins.entry.end c) scratch.old scratch.new c.items)
        reader.old reader.new }
{
    let mode = reader.read_u32(2)?;
    read_behind(reader, mode as u8, bins, gains, scratch)
}
