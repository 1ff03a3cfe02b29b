// Replays the recorded answers of the calls that plan, write, read and print a channel, as replay does for the calls
// below them: channels of up to eight bins (tests/judge/record_channels.rs has what a record is and how it was made).
#![tactic(auto)]

ghost use Rattle.std.specs.Prelude.{◌≤◌};

use answers::Refusal;
use bits::BitPos;
use planner::Plan;
use reader::ChannelRead;
use records::Function;
use std::array;
use std::convert::TryFrom;

type Record = [u8; 1024];

// Lent for pages: a page and 50 bytes more.
type Output = [u8; 3300];

// The places of these records beside those of every record: mode, payload, count and gains are the plan's or what was
// read; the lengths of row, vectors, bytes and the reader's three outputs; what the call is given, and from BYTES_AFTER
// on what stands there afterwards.
const MODE: usize = 2;

const ROW_LEN: usize = 3;

const VECTORS_LEN: usize = 4;

const BYTES_LEN: usize = 5;

const VALUES_LEN: usize = 6;

const EXACT_LEN: usize = 7;

const PAYLOAD: usize = 20;

const START: usize = 24;

const END: usize = 32;

const COUNT: usize = 40;

const INDICES_LEN: usize = 48;

const ROW: usize = 56;

const GAINS: usize = 72;

const VECTORS: usize = 128;

const BYTES: usize = 320;

const BYTES_AFTER: usize = 448;

const VALUES: usize = 576;

const EXACT: usize = 768;

const INDICES: usize = 960;

// Of pages: the length of the output and the first two lines.
const OUTPUT_LEN: usize = 8;

const LINES: usize = 320;

// What stands in the output before the call.
const FILLER: u8 = 0x42;

fn row(r: &Record) -> &[u8] {
    records::part(r, ROW, usize::from(r[ROW_LEN]).min(16))
}

// The components of eight bins. replay has those of one: each is one call, and would be one of a shared function.
fn vectors(r: &Record) -> [f32; 48] {
    array::from_fn(|i| records::number(r, VECTORS + 4 * i))
}

// The gains that a record holds are 32; all others are 0.
fn same_gains(r: &Record, gains: &[u8; 256]) -> bool {
    &gains[..32] == records::part(r, GAINS, 32) && gains[32..].iter().all(|gain| *gain == 0)
}

// ---- plan_aht_channel

fn plan(r: &Record, x: [f32; 48]) -> Result<Plan, Refusal> {
    let n = usize::from(r[VECTORS_LEN]).min(48);
    let start = records::number64(r, START) as usize;
    let end = records::number64(r, END) as usize;
    planner::plan_aht_channel(row(r), start, end, &x[0..n])
}

fn same_plan(r: &Record, p: Plan) -> bool {
    let gains = p.gains;
    r[MODE] == p.mode && records::number64(r, COUNT) == p.count as u64 && same_gains(r, &gains)
}

// Beside a refusal the record has zeros.
fn replay_plan(r: &Record, answer: Result<Plan, Refusal>) -> bool {
    match answer {
        Ok(p) => records::same_value(r, 0, u64::from(p.payload)) && same_plan(r, p),
        Err(k) => records::same_value(r, k.number(), 0) && same_none(r),
    }
}

// Whether mode, count and gains of the record are zeros.
fn same_none(r: &Record) -> bool {
    r[MODE] == 0 && records::number64(r, COUNT) == 0 && same_gains(r, &channel::no_gains())
}

// ---- write_aht_channel

// The gains of a plan; the record's 32 stand again behind them, so that places that no gain uses hold something.
fn gains_of(r: &Record) -> [u8; 256] {
    array::from_fn(|i| r[GAINS + i % 32])
}

fn plan_of(r: &Record, gains: [u8; 256]) -> Plan {
    Plan {
        mode: r[MODE],
        gains,
        count: records::number64(r, COUNT) as usize,
        payload: records::number32(r, PAYLOAD),
    }
}

// Whether the bytes, in a copy of the record, are what the record has after the call.
fn same_bytes(r: &Record, out: &Record) -> bool {
    records::part(out, BYTES, 128) == records::part(r, BYTES_AFTER, 128)
}

// The call writes to the bytes in a copy of the record.
fn replay_write(r: &Record, plan: Plan, x: [f32; 48]) -> bool {
    let mut out = *r;
    let n = usize::from(r[VECTORS_LEN]).min(48);
    let end_of_bytes = BYTES + usize::from(r[BYTES_LEN]).min(128);
    let start = records::number64(r, START) as usize;
    let end = records::number64(r, END) as usize;
    let p = records::position(r);
    let answer = writer::write_aht_channel(
        plan,
        row(r),
        start,
        end,
        &x[0..n],
        &mut out[BYTES..end_of_bytes],
        p,
    );
    same_bytes(r, &out) && records::same_move(r, answer)
}

// ---- read_aht_channel

// Six values, six exact values and an index for each of eight bins.
fn same_outputs(r: &Record, values: &[f32; 48], exact: &[i32; 48], indices: &[u16; 8]) -> bool {
    records::same_floats(r, VALUES, values)
        && exact.iter().enumerate().all(|(i, x)| *x
            == records::number32(r, EXACT + 4 * i).cast_signed())
        && indices
            .iter()
            .enumerate()
            .all(|(i, x)| *x == records::number16(r, INDICES + 2 * i))
}

fn same_shown(r: &Record, answer: Result<ChannelRead, Refusal>) -> bool {
    match answer {
        Ok(shown) => {
            let gains = shown.gains;
            records::same_value(r, 0, u64::from(shown.bits))
                && r[MODE] == shown.mode
                && records::number64(r, COUNT) == shown.count as u64
                && same_gains(r, &gains)
        }
        Err(k) => records::same_value(r, k.number(), 0) && same_none(r),
    }
}

fn replay_read(r: &Record) -> bool {
    // each byte of these is 0x42, as in every record before the call
    let mut values = [48.564705f32; 48];
    let mut exact = [0x4242_4242i32; 48];
    let mut indices = [0x4242u16; 8];
    let len = usize::from(r[BYTES_LEN]).min(128);
    let a = usize::from(r[VALUES_LEN]).min(48);
    let b = usize::from(r[EXACT_LEN]).min(48);
    let c = usize::from(r[INDICES_LEN]).min(8);
    let p = records::position(r);
    let start = records::number64(r, START) as usize;
    let end = records::number64(r, END) as usize;
    let answer = reader::read_aht_channel(
        records::part(r, BYTES, len),
        p,
        row(r),
        start,
        end,
        &mut values[0..a],
        &mut exact[0..b],
        &mut indices[0..c],
    );
    same_outputs(r, &values, &exact, &indices) && same_shown(r, answer)
}

// ---- print_pages

// What has to stand at a place of the output: the two lines of the record, then lines of 64 spaces; behind the pages
// what was there.
fn page_byte(r: &Record, at: usize) -> u8 {
    if records::number64(r, records::VALUE) <= at as u64 {
        return FILLER;
    }
    if at < 130 {
        return records::byte(r, LINES + at);
    }
    if at % 65 == 64 { 10 } else { 32 }
}

fn same_pages(r: &Record, out: &Output) -> bool {
    out.iter().enumerate().all(|(i, b)| *b == page_byte(r, i))
}

fn output_len(r: &Record) -> usize
    ensures { result ≤ 3300 }
{
    (records::number64(r, OUTPUT_LEN) as usize).min(3300)
}

fn replay_print(r: &Record, plan: Plan, x: [f32; 48]) -> bool {
    let mut out = [FILLER; 3300];
    let n = usize::from(r[VECTORS_LEN]).min(48);
    let len = output_len(r);
    let start = records::number64(r, START) as usize;
    let end = records::number64(r, END) as usize;
    let answer = pages::print_pages(plan, row(r), start, end, &x[0..n], &mut out[0..len]);
    same_pages(r, &out) && records::same_number(r, answer)
}

// Whether the call of the record gives the record's answer.
fn right(r: &Record) -> bool {
    let Ok(function) = Function::try_from(r[0]) else {
        return false;
    };
    match function {
        Function::PlanAhtChannel => replay_plan(r, plan(r, vectors(r))),
        Function::WriteAhtChannel => replay_write(r, plan_of(r, gains_of(r)), vectors(r)),
        Function::ReadAhtChannel => replay_read(r),
        Function::PrintPages => replay_print(r, plan_of(r, gains_of(r)), vectors(r)),
        _ => false,
    }
}

// The same of a record that is lent as a slice. It stands in both programs, since `right` takes an array of the
// program's own length, and no proof covers a bound `Fn` that names a const parameter.
fn right_at(r: &[u8]) -> bool {
    let Ok(record) = <&Record>::try_from(r) else {
        return false;
    };
    right(record)
}

fn main(rt: HostRuntime) {
    let mut record = [0u8; 1024];
    records::replay(&rt, &mut record, right_at)
}
