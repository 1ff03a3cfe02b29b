// The channel reader: the layout of a field backwards.
#![tactic(auto)]

ghost use Rattle.std.specs.Prelude.{◌≡◌, ◌||◌, ◌+◌, ◌-◌, ◌*◌, ◌<◌, ◌≤◌, ltb, length};
ghost use Rattle.bits.specs.Bits.{bit_at};
ghost use Rattle.bits.specs.Takes.{ahead, Takes};
ghost use Rattle.channel.specs.Field.{field};
ghost use Rattle.reader.specs.Reading.{no_channel, call, answer_to, values_after, exact_after, indices_after};
ghost use Rattle.reader.specs.Work.{outputs, Long, FoundPut, GainsPut, head_of};

use answers::Refusal;
use bits::BitPos;
use bits::field_reader::FieldReader;
use channel::bins::Bins;
use scratch::Scratch;

mod gain_words;
mod one_bin;
mod scratch;
mod whole_field;

// What a field shows beside the outputs. The gains are Gk in bin order, count of them, then zeros; bits is the field's
// length.
#[derive(Clone, Copy)]
pub struct ChannelRead {
    pub mode: u8,
    pub gains: [u8; 256],
    pub count: usize,
    pub bits: u32,
}

// The zeros that stand beside a refusal: what `unwrap_or_default` gives of a refused call.
impl Default for ChannelRead {
    ghost is_default = { λ r. r ≡ no_channel };

    fn default() -> ChannelRead {
        ChannelRead {
            mode: 0,
            gains: channel::no_gains(),
            count: 0,
            bits: 0,
        }
    }
}

// What stands before the bins of a field: the mode, and how many gains.
#[derive(Clone, Copy)]
pub struct FieldHead {
    pub mode: u8,
    pub count: usize,
}

// Whether an output is too short for the bins: 6 * end could overflow, so the lengths are divided.
pub fn too_short(end: usize, values: usize, exact: usize, indices: usize) -> bool
    ensures { result ≡ (ltb values (6 * end) || (ltb exact (6 * end) || ltb indices end)) }
{
    if values / 6 < end {
        return true;
    }
    if exact / 6 < end {
        return true;
    }
    indices < end
}

// Reads into the scratch buffers and copies to the outputs once the whole field has been read, so that a refusal leaves
// them as they were.
fn read_known(
    reader: &mut FieldReader,
    bins: Bins,
    gains: &mut [u8; 256],
    scratch: &mut Scratch,
    values: &mut [f32],
    exact: &mut [i32],
    indices: &mut [u16],
) -> Result<FieldHead, Refusal>
    requires { Long bins.end (outputs values.old exact.old indices.old) }
    ensures reads { Takes head_of ((field bins.entry.row.now bins.entry.start bins.entry.end).dec (ahead reader.old)) result
        (λ c. GainsPut gains.old gains.new c.gains) reader.old reader.new }
    ensures found_put { FoundPut bins.entry.row.now bins.entry.start bins.entry.end (outputs values.old exact.old indices.old)
        (outputs values.new exact.new indices.new)
        ((field bins.entry.row.now bins.entry.start bins.entry.end).dec (ahead reader.old)) }
{
    let head = whole_field::read_field(reader, bins, gains, &mut *scratch)?;
    scratch.hand_out(bins, values, exact, indices);
    Ok(head)
}

// How many bits lie between two positions.
fn bits_between(p: BitPos, q: BitPos) -> u32
    requires { (bit_at p ≤ bit_at q) × (bit_at q ≤ bit_at p + 65536) × (q.bit < 8) }
    ensures { result ≡ bit_at q - bit_at p }
{
    let byte = p.byte + (p.bit / 8) as usize;
    ((q.byte - byte) * 8) as u32 + q.bit - p.bit % 8
}

// Reads the field of the bins start to end - 1, where hebap is the row: six f32, six exact values (in units of 2^-30)
// and an index for each bin go to the bin's places. Refuses with 1 to 4, then 8, 9, 10 as met; a refusal leaves every
// output as it was.
pub fn read_aht_channel(
    src: &[u8],
    pos: BitPos,
    hebap: &[u8],
    start: usize,
    end: usize,
    values: &mut [f32],
    exact: &mut [i32],
    indices: &mut [u16],
) -> Result<ChannelRead, Refusal>
    ensures value { result ≡ answer_to hebap.now start end
        (call src.now (bit_at pos) values.old exact.old indices.old) }
    ensures values_after { values.new ≡ values_after hebap.now start end
        (call src.now (bit_at pos) values.old exact.old indices.old) }
    ensures exact_after { exact.new ≡ exact_after hebap.now start end
        (call src.now (bit_at pos) values.old exact.old indices.old) }
    ensures indices_after { indices.new ≡ indices_after hebap.now start end
        (call src.now (bit_at pos) values.old exact.old indices.old) }
{
    // Zeroed before the row is looked at: behind it, a call takes some 4% longer.
    let mut scratch = Scratch {
        values: [[0.0; 6]; 256],
        exact: [[0; 6]; 256],
        indices: [0; 256],
    };
    let short = too_short(end, values.len(), exact.len(), indices.len());
    channel::check_row(hebap, start, end, short)?;
    if !pos.has_bits(src.len(), 1, 0) {
        return Err(Refusal::InputEnds);
    }
    let bins = Bins {
        row: hebap,
        start,
        end,
    };
    let mut gains = channel::no_gains();
    let mut reader = FieldReader::new(src, pos);
    let head = read_known(
        &mut reader,
        bins,
        &mut gains,
        &mut scratch,
        values,
        exact,
        indices,
    )?;
    Ok(ChannelRead {
        mode: head.mode,
        gains,
        count: head.count,
        bits: bits_between(pos, reader.pos),
    })
}
