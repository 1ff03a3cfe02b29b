// The layout of a channel's field (specs/), and what planner, writer and reader ask of a row.
#![tactic(auto)]

ghost use Rattle.std.specs.Prelude.{◌≡◌, cond, ◌≤◌, length, get_or};
ghost use Rattle.gains.specs.Gains.{active};
ghost use Rattle.channel.specs.Bins.{some_over};
ghost use Rattle.channel.specs.Row.{active_count, no_gains, unknown_at, row_cause};
ghost use Rattle.answers.specs.Answers.{answered};

use answers::Refusal;

pub mod bins;

#[tactic(auto, unfolding(crate::specs::Row::no_gains))]
pub fn no_gains() -> [u8; 256]
    ensures { result ≡ no_gains }
{
    [0u8; 256]
}

// Refuses with the lowest of causes 1 to 4 that holds; short says that some buffer beside the row is too short for the
// bins.
pub fn check_row(row: &[u8], start: usize, end: usize, short: bool) -> Result<(), Refusal>
    ensures { result ≡ answered (row_cause row.now start end short) tt }
{
    if end < start {
        return Err(Refusal::StartAboveEnd);
    }
    if 256 < end {
        return Err(Refusal::EndAbove256);
    }
    if row.len() < end {
        return Err(Refusal::TooShort);
    }
    if short {
        return Err(Refusal::TooShort);
    }
    if any_unknown(row, start, end) {
        return Err(Refusal::HebapAbove19);
    }
    Ok(())
}

// Whether some hebap of the bins start to end - 1 is above 19. All are looked at, which the machine does for several
// together.
#[tactic(auto, using(crate::proofs::Over::some_none))]
fn any_unknown(row: &[u8], start: usize, end: usize) -> bool
    requires { (start ≤ end) × (end ≤ length row.now) }
    ensures { result ≡ some_over (unknown_at row.now) start end }
{
    let mut found = false;
    for &hebap in &row[start..end] {
        found |= hebap > 19;
    }
    found
}

// How many bins are active in a mode.
#[tactic(auto, using(crate::proofs::Rows::count_start, crate::proofs::Rows::count_most, crate::proofs::Over::one_small))]
pub fn count_active(row: &[u8], start: usize, end: usize, mode: u8) -> usize
    requires { (start ≤ end) × (end ≤ 256) × (end ≤ length row.now) }
    ensures { result ≡ active_count mode row.now start end }
{
    let mut n: usize = 0;
    for &hebap in &row[start..end] {
        n += gains_used(mode, hebap);
    }
    n
}

// The gain at the place n; 0 behind the last.
pub fn gain_at(gains: &[u8], n: usize) -> u8
    ensures { result ≡ get_or gains.now n 0 }
{
    gains.get(n).copied().unwrap_or(0)
}

// How many gains a bin uses up. No branch, so that loops over a row take several bins at a time.
pub fn gains_used(mode: u8, hebap: u8) -> usize
    ensures { result ≡ cond (active mode hebap) 1 0 }
{
    usize::from(gains::is_active(mode, hebap))
}
