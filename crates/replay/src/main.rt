// Replays the recorded answers of the calls below the planner (tests/judge/record.rs has what a record is and how it
// was made). Prints for each function how many answers were replayed and how many were wrong.
#![tactic(auto)]

ghost use Rattle.std.specs.Prelude.{◌≤◌};

use answers::Refusal;
use bitreader::Three;
use bits::BitPos;
use levels::Code;
use quantiser::{CodeLevel, QuantisedBin};
use records::Function;
use std::array;
use std::convert::TryFrom;

type Record = [u8; 256];

// The places of these records beside those of every record.
const A: usize = 2;

const B: usize = 3;

const C: usize = 4;

const D: usize = 5;

const SRC_LEN: usize = 6;

const OUT_LEN: usize = 7;

const ARG32: usize = 20;

const ARG64: usize = 24;

const SRC: usize = 32;

const OUT: usize = 56;

const OUT_AFTER: usize = 80;

const VECTORS: usize = 128;

// The input of the call.
fn input(r: &Record) -> &[u8] {
    records::part(r, SRC, usize::from(r[SRC_LEN]).min(24))
}

// Whether the n places of the output, in a copy of the record, are what the record has after the call.
fn same_out(r: &Record, out: &Record, n: usize) -> bool {
    records::part(out, OUT, n) == records::part(r, OUT_AFTER, n)
}

// Whether the six have the bits of the output after the call.
fn same_six(r: &Record, y: &[f32; 6]) -> bool {
    records::same_floats(r, OUT_AFTER, y)
}

fn read(r: &Record) -> Result<(u32, BitPos), Refusal> {
    let p = records::position(r);
    p.read_u32(input(r), records::number32(r, ARG32))
}

fn replay_read(r: &Record, answer: Result<(u32, BitPos), Refusal>) -> bool {
    records::same_answer(r, answer, |(v, q)| {
        records::same_value(r, 0, u64::from(v)) && records::same_place(r, q)
    })
}

// Three numbers through a reader that keeps the bytes; they stand where an output would.
fn three(r: &Record) -> Result<Three, Refusal> {
    bitreader::read_three(
        input(r),
        records::position(r),
        u32::from(r[A]),
        u32::from(r[B]),
        u32::from(r[C]),
    )
}

fn same_three(r: &Record, x: u32, y: u32, z: u32) -> bool {
    records::number32(r, OUT_AFTER) == x
        && records::number32(r, OUT_AFTER + 4) == y
        && records::number32(r, OUT_AFTER + 8) == z
}

fn replay_three(r: &Record, answer: Result<Three, Refusal>) -> bool {
    records::same_answer(r, answer, |three| {
        records::same_value(r, 0, 0)
            && same_three(r, three.first, three.second, three.third)
            && records::same_place(r, three.pos)
    })
}

// The call writes to the place of the output in a copy of the record.
fn replay_write(r: Record) -> bool {
    let mut out = r;
    let n = usize::from(r[OUT_LEN]).min(24);
    let end = OUT + n;
    let p = records::position(&r);
    let v = records::number32(&r, ARG32);
    let answer = p.write_u32(&mut out[OUT..end], v, u32::from(r[A]));
    same_out(&r, &out, n) && records::same_move(&r, answer)
}

fn hebap(r: &Record) -> Result<u8, Refusal> {
    tables::hebap_from_address(
        records::number16(r, A).cast_signed(),
        records::number32(r, ARG32).cast_signed(),
    )
}

// The output before the call, as signed numbers.
fn marks_of(r: &Record) -> [i8; 24] {
    array::from_fn(|i| r[OUT + i].cast_signed())
}

fn same_marks(r: &Record, n: usize, marks: &[i8; 24]) -> bool
    requires { n ≤ 24 }
{
    marks[..n]
        .iter()
        .zip(&r[OUT_AFTER..])
        .all(|(mark, b)| *mark == b.cast_signed())
}

fn replay_fill(r: &Record, before: [i8; 24]) -> bool {
    let mut marks = before;
    let n = usize::from(r[OUT_LEN]).min(24);
    let answer = gains::fill_gaqbin(input(r), r[A], &mut marks[0..n]);
    same_marks(r, n, &marks) && records::same_number(r, answer)
}

fn replay_gains(r: Record) -> bool {
    let mut out = r;
    let n = usize::from(r[OUT_LEN]).min(24);
    let end = OUT + n;
    let p = records::position(&r);
    let sections = records::number64(&r, ARG64) as usize;
    let mode = r[A];
    let answer = gains::read_gaq_gains(input(&r), p, mode, sections, &mut out[OUT..end]);
    same_out(&r, &out, n)
        && records::same_answer(&r, answer, |(n, q)| {
            records::same_value(&r, 0, n as u64) && records::same_place(&r, q)
        })
}

fn replay_scalars(r: &Record) -> bool {
    // each byte of these is 0x42, as in every record before the call
    let mut values = [48.564705f32; 6];
    let p = records::position(r);
    let answer = scalars::read_scalar_aht_mantissas(
        input(r),
        p,
        r[A],
        r[B],
        r[C].cast_signed(),
        r[D],
        &mut values,
    );
    same_six(r, &values) && records::same_move(r, answer)
}

// The components of a bin. replay_channels has those of eight: each is one call, and would be one of a shared function.
fn six(r: &Record) -> [f32; 6] {
    array::from_fn(|i| records::number(r, VECTORS + 4 * i))
}

fn replay_lookup(r: &Record, answer: [f32; 6]) -> bool {
    same_six(r, &answer) && records::same_value(r, 0, 0)
}

fn search(r: &Record, x: [f32; 6]) -> Result<usize, Refusal> {
    books::vq_search(r[A], &x)
}

fn same_code(r: &Record, code: Code) -> bool {
    match code {
        Code::Small(s) => r[C] == 0 && records::same_value(r, 0, s as u64),
        Code::Large(l) => r[C] == 1 && records::same_value(r, 0, l as u64),
    }
}

fn replay_scalar(r: &Record, answer: Result<CodeLevel, Refusal>) -> bool {
    records::same_answer(r, answer, |picked| {
        same_code(r, picked.code)
            && records::same_float(r, OUT_AFTER, levels::value_of(picked.level))
    })
}

fn bin(r: &Record, x: [f32; 6]) -> Result<QuantisedBin, Refusal> {
    quantiser::quantise_bin(r[A], r[B], &x)
}

// Beside a refusal the record has zeros.
fn replay_bin(r: &Record, answer: Result<QuantisedBin, Refusal>) -> bool {
    match answer {
        Ok(bin) => {
            let values = bin.values;
            records::same_value(r, 0, u64::from(bin.bits))
                && records::same_float(r, ARG32, bin.err)
                && same_six(r, &values)
        }
        Err(k) => {
            records::same_value(r, k.number(), 0)
                && records::same_float(r, ARG32, 0.0)
                && same_six(r, &[0.0; 6])
        }
    }
}

// Whether the call of the record gives the record's answer.
fn right(r: &Record) -> bool {
    let Ok(function) = Function::try_from(r[0]) else {
        return false;
    };
    match function {
        Function::ReadU32 => replay_read(r, read(r)),
        Function::WriteU32 => replay_write(*r),
        Function::HebapFromAddress => records::same_number(r, hebap(r).map(usize::from)),
        Function::EndbapForGaqmod => records::same_number(
            r,
            gains::endbap_for_gaqmod(r[A]).map(usize::from),
        ),
        Function::FillGaqbin => replay_fill(r, marks_of(r)),
        Function::GaqSections => records::same_number(
            r,
            gains::gaq_sections(r[A], records::number64(r, ARG64) as usize),
        ),
        Function::GaqGainValue => records::same_number(
            r,
            gains::gaq_gain_value(r[A], r[B]).map(usize::from),
        ),
        Function::ReadGaqGains => replay_gains(*r),
        Function::ReadScalarAhtMantissas => replay_scalars(r),
        Function::VqLookup => replay_lookup(
            r,
            books::vq_lookup(r[A], records::number64(r, ARG64) as usize),
        ),
        Function::VqSearch => records::same_number(r, search(r, six(r))),
        Function::QuantiseScalar => replay_scalar(
            r,
            quantiser::quantise_scalar(r[A], r[B], records::number(r, VECTORS)),
        ),
        Function::QuantiseBin => replay_bin(r, bin(r, six(r))),
        Function::ReadThree => replay_three(r, three(r)),
        _ => false,
    }
}

// The same of a record that is lent as a slice. It stands in both programs, since `right` takes an array of the
// program's own length, and no proof covers a bound `Fn` that names a const parameter.
fn right_at(r: &[u8]) -> bool {
    let Ok(record) = <&Record>::try_from(r) else {
        return false;
    };
    right(record)
}

fn main(rt: HostRuntime) {
    let mut record = [0u8; 256];
    records::replay(&rt, &mut record, right_at)
}
