// A plan on pages: each bin with its hebap, its gain and its bits. docs/FORMAT.md, Pages.
#![tactic(auto)]

ghost use Rattle.std.specs.Prelude.{◌≡◌, ◌∷◌, ◌-◌, ◌*◌, ◌<◌, ◌≤◌, length};
ghost use Rattle.bits.specs.Bits.{splice};
ghost use Rattle.channel.specs.Row.{active_count};
ghost use Rattle.pages.specs.Pages.{aligned, gain_text, cell_text, cell_at, cell_text_at, place_at};
ghost use Rattle.pages.specs.Printing.{pages_print, pages_printed};
ghost use Rattle.pages.specs.Work.{blank_lines, with_cells};

use answers::Refusal;
use channel::bins::Bins;
use planner::Plan;
use planner::vectors::BinVectors;

// What is shown of a bin; gk is 0 where the bin isn't active, for which a dash is printed: made and tested in one place
// each, so an Option is no plainer.
#[derive(Clone, Copy)]
pub struct Cell {
    pub bin: u32,
    pub hebap: u8,
    pub gk: u8,
    pub bits: u32,
}

const LINE_END: u8 = 10;

const SPACE: u8 = 32;

const DASH: u8 = 45;

const ZERO: u8 = 48;

// Lines of 64 spaces. By index: after chunks_exact_mut a proof would know how long the lines are, and nothing in them.
fn put_blank(out: &mut [u8], lines: usize)
    requires { 65 * lines ≤ length out.old }
    ensures { out.new ≡ splice out.old 0 (blank_lines lines) }
{
    for line in 0..lines {
        let at = 65 * line;
        out[at..at + 64].fill(SPACE);
        out[at + 64] = LINE_END;
    }
}

// A number right-aligned in all places, by hand as in plantext.
fn put_number(out: &mut [u8], n: u32)
    ensures { out.new ≡ aligned (length out.old) n }
{
    let places = out.len();
    if places == 0 {
        return;
    }
    let last = places - 1;
    if n < 10 {
        out[..last].fill(SPACE);
    } else {
        put_number(&mut out[..last], n / 10);
    }
    out[last] = ZERO + (n % 10) as u8;
}

// The same after a space.
fn put_part(out: &mut [u8], n: u32)
    requires { 0 < length out.old }
    ensures { out.new ≡ 32 ∷ aligned (length out.old - 1) n }
{
    out[0] = SPACE;
    put_number(&mut out[1..], n);
}

// Gk after a space, or a dash for 0.
fn put_gain(out: &mut [u8], gk: u8)
    requires { length out.old ≡ 2 }
    ensures { out.new ≡ 32 ∷ gain_text gk }
{
    if gk == 0 {
        out[0] = SPACE;
        out[1] = DASH;
        return;
    }
    put_part(out, u32::from(gk))
}

// The twelve characters of a bin.
fn put_cell(out: &mut [u8], c: Cell)
    requires { length out.old ≡ 12 }
    ensures { out.new ≡ cell_text c }
{
    put_number(&mut out[..3], c.bin);
    put_part(&mut out[3..6], u32::from(c.hebap));
    put_gain(&mut out[6..8], c.gk);
    put_part(&mut out[8..12], c.bits);
}

// The place of the bin i of the pages: four to a line.
fn place_of(i: usize) -> usize
    requires { i < 256 }
    ensures { result ≡ place_at i }
{
    65 * (i / 4) + 13 * (i % 4)
}

// What is shown of a bin, before which n bins are active.
fn cell_of(mode: u8, gains: &[u8], n: usize, v: BinVectors, bin: usize) -> Cell
    requires in_bins { (v.bins.start ≤ bin) × (bin < v.bins.end) }
    requires n_value { n ≡ active_count mode v.bins.row.now v.bins.start bin }
    ensures { result ≡ cell_at mode gains.now v.entry.bins.row.now v.entry.x.now v.entry.bins.start bin }
{
    let hebap = v.bins.row[bin];
    let gain = channel::gain_at(gains, n);
    let gk = if gains::is_active(mode, hebap) {
        gain
    } else {
        0
    };
    let bits = planner::bin_bits(mode, hebap, gain, v.x, bin);
    Cell {
        bin: bin as u32,
        hebap,
        gk,
        bits,
    }
}

// The cells of the bins, each at its place.
fn put_cells(out: &mut [u8], mode: u8, gains: &[u8], v: BinVectors)
    requires { place_at (v.bins.end - v.bins.start) ≤ length out.old }
    ensures { out.new
        ≡ with_cells (cell_text_at mode gains.now v.entry.bins.row.now v.entry.x.now v.entry.bins.start) v.entry.bins.start v.entry.bins.end out.old }
{
    let mut n: usize = 0;
    for bin in v.bins.start..v.bins.end {
        let c = cell_of(mode, gains, n, v, bin);
        let at = place_of(bin - v.bins.start);
        put_cell(&mut out[at..at + 12], c);
        n += channel::gains_used(mode, v.bins.row[bin]);
    }
}

// The pages of the plan go to the front of the output; their length in bytes is the answer. Refuses with 1 to 6 as
// write_aht_channel does, then 7; a refusal leaves the output as it was.
pub fn print_pages(
    plan: Plan,
    hebap: &[u8],
    start: usize,
    end: usize,
    x: &[f32],
    out: &mut [u8],
) -> Result<usize, Refusal>
    ensures value { result ≡ pages_print plan hebap.now start end x.now out.old }
    ensures out_after { out.new ≡ pages_printed plan hebap.now start end x.now out.old }
{
    planner::check_plan(plan, hebap, start, end, x)?;
    // A page of 50 lines for each 200 bins begun.
    let lines = 50 * ((end - start + 199) / 200);
    if out.len() < 65 * lines {
        return Err(Refusal::OutputFull);
    }
    let gains = &plan.gains[..plan.count];
    put_blank(&mut *out, lines);
    let bins = Bins {
        row: hebap,
        start,
        end,
    };
    put_cells(out, plan.mode, gains, BinVectors { bins, x });
    Ok(65 * lines)
}
