// The plan of a channel: which mode and which gains take the fewest bits.
#![tactic(auto)]

ghost use Rattle.std.specs.Prelude.{◌≡◌, ◌+◌, ◌*◌, ◌<◌, ◌≤◌, cond, length};
ghost use Rattle.gains.specs.Gains.{active};
ghost use Rattle.channel.specs.Row.{six_of};
ghost use Rattle.planner.specs.Cost.{bin_bits};
ghost use Rattle.planner.specs.Fit.{choice_fits, plan_fits, plan_cause};
ghost use Rattle.planner.specs.Planning.{no_plan, plan_of, cause_of, planned};
ghost use Rattle.answers.specs.Answers.{answered};

use answers::Refusal;
use channel::bins::Bins;

mod costs;
mod fit;
mod one_bin;
mod tally;
pub mod vectors;

pub use costs::Costs;
use tally::Tally;
use vectors::BinVectors;

// The gains are Gk in bin order, count of them, then zeros. The total is 2 plus the payload.
#[derive(Clone, Copy)]
pub struct Plan {
    pub mode: u8,
    pub gains: [u8; 256],
    pub count: usize,
    pub payload: u32,
}

// The zeros that stand beside a refusal: what `unwrap_or_default` gives of a refused call.
impl Default for Plan {
    ghost is_default = { λ p. p ≡ no_plan };

    fn default() -> Plan {
        Plan {
            mode: 0,
            gains: channel::no_gains(),
            count: 0,
            payload: 0,
        }
    }
}

// The sizes from which on a component takes the tag and a large code.
#[derive(Clone, Copy)]
pub struct Limits {
    pub two: f32,
    pub four: f32,
}

fn plan_bins(v: BinVectors) -> Plan
    ensures { result ≡ plan_of v.entry.bins.row.now v.entry.x.now v.entry.bins.start v.entry.bins.end }
{
    let mut tallies = [Tally::new(); 4];
    let plain = tally::tally_bins(v, &mut tallies);
    let mode = tally::best_mode(plain, &tallies);
    let best = &tallies[mode as usize];
    let payload = best.payload(plain, mode);
    Plan {
        mode,
        gains: best.gains,
        count: best.count as usize,
        payload,
    }
}

// Refuses with the lowest of causes 1 to 5 that holds.
pub fn check_channel(hebap: &[u8], start: usize, end: usize, x: &[f32]) -> Result<(), Refusal>
    ensures { result ≡ answered (cause_of hebap.now start end x.now) tt }
{
    channel::check_row(hebap, start, end, x.len() / 6 < end)?;
    let bins = Bins {
        row: hebap,
        start,
        end,
    };
    let v = BinVectors { bins, x };
    if v.any_too_large() {
        return Err(Refusal::Component);
    }
    Ok(())
}

// The plan of the bins start to end - 1, where hebap is the row and x the vectors. Refuses with 1 to 5.
pub fn plan_aht_channel(hebap: &[u8], start: usize, end: usize, x: &[f32]) -> Result<Plan, Refusal>
    ensures { result ≡ planned hebap.now start end x.now }
{
    check_channel(hebap, start, end, x)?;
    let bins = Bins {
        row: hebap,
        start,
        end,
    };
    Ok(plan_bins(BinVectors { bins, x }))
}

// Whether the mode is 0 to 3 and the first count gains are allowed gains of the active bins, one for each.
pub fn choice_fits(mode: u8, gains: &[u8], count: usize, bins: Bins) -> bool
    ensures { result ≡ choice_fits mode gains.now count bins.entry.row.now bins.entry.start bins.entry.end }
{
    if 3 < mode {
        return false;
    }
    if count != bins.count_active(mode) {
        return false;
    }
    !fit::any_wrong(mode, gains, count)
}

// Whether the plan fits, best or not.
fn plan_fits(p: Plan, v: BinVectors) -> bool
    ensures { result ≡ plan_fits p v.entry.bins.row.now v.entry.bins.start v.entry.bins.end v.entry.x.now }
{
    let mode = p.mode;
    let count = p.count;
    let gains = p.gains;
    if !choice_fits(mode, &gains, count, v.bins) {
        return false;
    }
    p.payload == fit::chosen_bits(v, mode, &gains) + gains::gain_word_bits(mode, count as u32)
}

// Refuses with the lowest of causes 1 to 6 that holds.
pub fn check_plan(p: Plan, hebap: &[u8], start: usize, end: usize, x: &[f32]) -> Result<(), Refusal>
    ensures { result ≡ answered (plan_cause p hebap.now start end x.now) tt }
{
    check_channel(hebap, start, end, x)?;
    let bins = Bins {
        row: hebap,
        start,
        end,
    };
    if !plan_fits(p, BinVectors { bins, x }) {
        return Err(Refusal::PlanMisfit);
    }
    Ok(())
}

// The bits of the bin at its gain; the gain counts where the bin is active.
pub fn bin_bits(mode: u8, hebap: u8, gain: u8, x: &[f32], bin: usize) -> u32
    requires { (bin < 256) × (6 * bin + 6 ≤ length x.now) }
    ensures { result ≡ bin_bits hebap (cond (active mode hebap) gain 1) (six_of x.now bin) }
{
    let a = 6 * bin;
    let b = a + 6;
    one_bin::bin_bits(mode, hebap, gain, &x[a..b].as_chunks::<6>().0[0])
}
