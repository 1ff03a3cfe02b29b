// The writer: the field of a plan put into an output, a code and a gain word at a time.
#![tactic(auto)]

ghost use Rattle.std.specs.Prelude.{◌≡◌, ◌*◌, ◌<◌, ◌≤◌, length, drop};
ghost use Rattle.bits.specs.Bits.{bits_n, bit_at};
ghost use Rattle.channel.specs.Field.{gain_code, packed, book, scalar, bin_of};
ghost use Rattle.planner.specs.Choice.{Choice};
ghost use Rattle.writer.specs.Written.{channel_write, channel_written};
ghost use Rattle.writer.specs.Work.{bin_enc, bins_enc, gains_enc, choice_enc, code_from};

use answers::Refusal;
use bits::BitPos;
use channel::bins::Bins;
use gains::Coding;
use planner::Plan;
use planner::vectors::BinVectors;
use quantiser::Steps;

// The output, and the position that the next bit goes to.
#[derive(Drop)]
struct FieldWriter<'a> {
    out: &'a mut [u8],
    pos: BitPos,
    ghost bit_small: { pos.bit < 8 },
}

// The code of a gain that a mode has: 0 for Gk 1, and 1, but 2 for Gk 4 in mode 3.
fn gain_code(gk: u8, mode: u8) -> u32
    ensures { result ≡ gain_code gk mode }
{
    match (mode, gk) {
        (_, 1) => 0,
        (3, 2) => 1,
        (3, _) => 2,
        _ => 1,
    }
}

// The code of the gain at the place i; 0 behind the last, for the missing codes of the last group.
fn code_at(gains: &[u8], i: usize) -> u32
    ensures { result ≡ code_from (drop i gains.now) }
{
    match gains.get(i) {
        Some(&gk) => gain_code(gk, 3),
        None => 0,
    }
}

// The word of a group of up to three gains.
fn word_of(group: &[u8]) -> u32
    requires { 0 < length group.now }
    ensures { result ≡ packed group.now }
{
    gains::pack(code_at(group, 0), code_at(group, 1), code_at(group, 2))
}

// Each `put` and `write` writes a part of the field, where there is room for it.
impl<'a> FieldWriter<'a> {
    ghost use Rattle.writer.specs.Puts.{Room, Puts};

    // From a position on, whose bit may be above 7.
    fn new(out: &'a mut [u8], pos: BitPos) -> FieldWriter<'a>
        requires inside { bit_at pos ≤ 8 * length out.now }
        ensures place { bit_at result.pos ≡ bit_at pos }
        ensures same_output { result.out.ghost_name ≡ out.entry.ghost_name }
        ensures bytes { result.out.now ≡ out.old }
    {
        FieldWriter {
            out,
            pos: pos.advance(1, 0),
        }
    }

    // The low n bits of v. Inlined, since a call for each code would take the position through memory.
    #[inline(always)]
    fn put(&mut self, v: u32, n: u32)
        requires n_bound { n ≤ 32 }
        requires room { Room (bits_n n v) self.old }
        ensures { Puts (bits_n n v) self.old self.new }
    {
        self.pos = self.pos.write_u32(self.out, v, n).unwrap();
    }

    // The quantiser's codes for the six components of a bin.
    fn write_six(&mut self, steps: Steps, x: &[f32; 6])
        requires { Room (bin_enc (scalar steps.hebap steps.gk) x.now) self.old }
        ensures { Puts (bin_enc (scalar steps.hebap steps.gk) x.now) self.old self.new }
    {
        for &component in x {
            let w = steps.word(component);
            self.put(w.bits, w.width);
        }
    }

    // The gain words of mode 1 or 2, a bit for each gain.
    fn write_gain_bits(&mut self, mode: u8, gains: &[u8])
        requires le_mode { (1 ≤ mode) × (mode ≤ 2) }
        requires room { Room (gains_enc mode gains.now) self.old }
        ensures { Puts (gains_enc mode gains.now) self.old self.new }
    {
        for &gk in gains {
            self.put(gain_code(gk, mode), 1);
        }
    }

    // Mode 3: a word of five bits for three gains.
    fn write_group_words(&mut self, gains: &[u8])
        requires { Room (gains_enc 3 gains.now) self.old }
        ensures { Puts (gains_enc 3 gains.now) self.old self.new }
    {
        for group in gains.chunks(3) {
            self.put(word_of(group), 5);
        }
    }

    // The index that the search picks for a bin.
    fn write_index(&mut self, hebap: u8, x: &[f32; 6])
        requires le_hebap { (1 ≤ hebap) × (hebap ≤ 7) }
        requires room { Room (bin_enc (book hebap) x.now) self.old }
        ensures { Puts (bin_enc (book hebap) x.now) self.old self.new }
    {
        let i = books::search(hebap, x);
        self.put(i as u32, tables::vq_bits(hebap) as u32)
    }

    // What stands in the field for a bin.
    fn write_bin(&mut self, mode: u8, hebap: u8, gk: u8, x: &[f32; 6])
        requires hebap_bound { hebap ≤ 19 }
        requires room { Room (bin_enc (bin_of mode hebap gk) x.now) self.old }
        ensures { Puts (bin_enc (bin_of mode hebap gk) x.now) self.old self.new }
    {
        match gains::coding_of(mode, hebap) {
            Coding::Nothing => {}
            Coding::Book => self.write_index(hebap, x),
            Coding::Fixed => self.write_six(Steps::new(hebap, 1), x),
            Coding::Adaptive => self.write_six(Steps::new(hebap, gk), x),
        }
    }

    // The gain words of a mode.
    fn write_gains(&mut self, mode: u8, gains: &[u8])
        requires mode_bound { mode ≤ 3 }
        requires room { Room (gains_enc mode gains.now) self.old }
        ensures { Puts (gains_enc mode gains.now) self.old self.new }
    {
        match mode {
            0 => {}
            3 => self.write_group_words(gains),
            _ => self.write_gain_bits(mode, gains),
        }
    }

    // What stands in the field for the bins of a row.
    fn write_bins(&mut self, mode: u8, gains: &[u8], v: BinVectors)
        requires { Room (bins_enc mode gains.now v.bins v.x.now v.bins.start) self.old }
        ensures { Puts (bins_enc mode gains.now v.entry.bins v.entry.x.now v.entry.bins.start) self.old self.new }
    {
        let mut n: usize = 0;
        for bin in v.bins.start..v.bins.end {
            let hebap = v.bins.hebap(bin);
            self.write_bin(mode, hebap, channel::gain_at(gains, n), v.six(bin));
            n += channel::gains_used(mode, hebap);
        }
    }

    // The field of a choice.
    fn write_field(&mut self, mode: u8, gains: &[u8], v: BinVectors)
        requires choice { Choice mode gains.now v.bins.row.now v.bins.start v.bins.end }
        requires room { Room (choice_enc mode gains.now v.bins v.x.now) self.old }
        ensures { Puts (choice_enc mode gains.now v.entry.bins v.entry.x.now) self.old self.new }
    {
        self.put(mode as u32, 2);
        self.write_gains(mode, gains);
        self.write_bins(mode, gains, v)
    }
}

// The field of the plan goes to the output from the position on. Refuses with 1 to 5, then 6, then 7; a refusal
// leaves the output as it was.
pub fn write_aht_channel(
    plan: Plan,
    hebap: &[u8],
    start: usize,
    end: usize,
    x: &[f32],
    out: &mut [u8],
    pos: BitPos,
) -> Result<BitPos, Refusal>
    ensures value { result ≡ channel_write plan hebap.now start end x.now out.old (bit_at pos) }
    ensures out_after { out.new ≡ channel_written plan hebap.now start end x.now out.old (bit_at pos) }
{
    planner::check_plan(plan, hebap, start, end, x)?;
    if !pos.has_bits(out.len(), 1, 2 + plan.payload as usize) {
        return Err(Refusal::OutputFull);
    }
    let gains = &plan.gains[..plan.count];
    let mut writer = FieldWriter::new(out, pos);
    let bins = Bins {
        row: hebap,
        start,
        end,
    };
    writer.write_field(plan.mode, gains, BinVectors { bins, x });
    Ok(writer.pos)
}
