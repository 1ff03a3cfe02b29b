// What replay and replay_channels share. A record is a call with the answer that the Rust gave (tests/judge/record.rs
// wrote it): the places that every record has, the numbers that stand there, whether an answer is the record's, and
// the count of answers. A place behind the end holds 0.
#![tactic(auto)]

ghost use Rattle.std.specs.Prelude.{◌≡◌, ◌<◌, ◌≤◌, ◌+◌, ◌*◌, ◌&&◌, ◌↔◌, ℕ, IfSome, true, length, slice_get, take, drop, MatchResult};
ghost use Rattle.std.specs.Bool.{OnTrue};
ghost use Rattle.std.specs.Result.{ForOk};
ghost use Rattle.std.specs.Io.KnownBytes.{Consumes};
ghost use Rattle.answers.specs.Causes.{number};
ghost use Rattle.records.specs.Records.{Decodes, at8, at16, at32, at64, float_of, position_of, same_value, same_place, same_float, new_count, one_more, count_after, IsReplayed};

use answers::Refusal;
use bits::BitPos;
use std::convert::TryFrom;
use std::fmt::{self, Display, Formatter, Write};
use std::io::Read;

// The places of a record, whatever its function.
pub const REFUSAL: usize = 1;

pub const BYTE: usize = 8;

pub const BIT: usize = 16;

pub const VALUE: usize = 104;

pub const NEXT_BYTE: usize = 112;

pub const NEXT_BIT: usize = 120;

// The function that a record calls.
#[derive(Clone, Copy)]
pub enum Function {
    ReadU32,
    WriteU32,
    HebapFromAddress,
    EndbapForGaqmod,
    FillGaqbin,
    GaqSections,
    GaqGainValue,
    ReadGaqGains,
    ReadScalarAhtMantissas,
    VqLookup,
    VqSearch,
    QuantiseScalar,
    QuantiseBin,
    PlanAhtChannel,
    WriteAhtChannel,
    ReadAhtChannel,
    ReadThree,
    PrintPages,
}

// A number that is no function's.
#[derive(Clone, Copy)]
pub struct NoFunction;

// By its number in a record.
impl TryFrom<u8> for Function {
    type Error = NoFunction;

    ghost try_from_gives = { Decodes };

    fn try_from(number: u8) -> Result<Function, NoFunction> {
        Ok(match number {
            1 => Function::ReadU32,
            2 => Function::WriteU32,
            3 => Function::HebapFromAddress,
            4 => Function::EndbapForGaqmod,
            5 => Function::FillGaqbin,
            6 => Function::GaqSections,
            7 => Function::GaqGainValue,
            8 => Function::ReadGaqGains,
            9 => Function::ReadScalarAhtMantissas,
            10 => Function::VqLookup,
            11 => Function::VqSearch,
            12 => Function::QuantiseScalar,
            13 => Function::QuantiseBin,
            14 => Function::PlanAhtChannel,
            15 => Function::WriteAhtChannel,
            16 => Function::ReadAhtChannel,
            17 => Function::ReadThree,
            18 => Function::PrintPages,
            _ => return Err(NoFunction),
        })
    }
}

impl Display for Function {
    fn fmt<W: Write>(&self, f: &mut Formatter<W>) -> fmt::Result {
        f.write_str(match self {
            Function::ReadU32 => "read_u32",
            Function::WriteU32 => "write_u32",
            Function::HebapFromAddress => "hebap_from_address",
            Function::EndbapForGaqmod => "endbap_for_gaqmod",
            Function::FillGaqbin => "fill_gaqbin",
            Function::GaqSections => "gaq_sections",
            Function::GaqGainValue => "gaq_gain_value",
            Function::ReadGaqGains => "read_gaq_gains",
            Function::ReadScalarAhtMantissas => "read_scalar_aht_mantissas",
            Function::VqLookup => "vq_lookup",
            Function::VqSearch => "vq_search",
            Function::QuantiseScalar => "quantise_scalar",
            Function::QuantiseBin => "quantise_bin",
            Function::PlanAhtChannel => "plan_aht_channel",
            Function::WriteAhtChannel => "write_aht_channel",
            Function::ReadAhtChannel => "read_aht_channel",
            Function::ReadThree => "read_three",
            Function::PrintPages => "print_pages",
        })
    }
}

// A function's number, how many answers of it were replayed, and how many of them were wrong.
#[derive(Clone, Copy)]
pub struct Count {
    pub function: u8,
    pub answers: u64,
    pub wrong: u64,
}

// The byte at a place, and the numbers of 16, 32 and 64 bits there, the least significant byte first. Each is one call
// of std, which has no trait over the three types.
pub fn byte(r: &[u8], at: usize) -> u8
    ensures { result ≡ at8 r.now at }
{
    r.get(at).copied().unwrap_or(0)
}

#[tactic(auto, unfolding(crate::specs::Records::at16))]
pub fn number16(r: &[u8], at: usize) -> u16
    requires { at < 0x1_0000 }
    ensures { result ≡ at16 r.now at }
{
    u16::from_le_bytes([byte(r, at), byte(r, at + 1)])
}

#[tactic(auto, unfolding(crate::specs::Records::at16, crate::specs::Records::at32))]
pub fn number32(r: &[u8], at: usize) -> u32
    requires { at < 0x8000 }
    ensures { result ≡ at32 r.now at }
{
    u32::from_le_bytes([
        byte(r, at),
        byte(r, at + 1),
        byte(r, at + 2),
        byte(r, at + 3),
    ])
}

#[tactic(auto, unfolding(crate::specs::Records::at16, crate::specs::Records::at32, crate::specs::Records::at64))]
pub fn number64(r: &[u8], at: usize) -> u64
    requires { at < 0x4000 }
    ensures { result ≡ at64 r.now at }
{
    u64::from_le_bytes([
        byte(r, at),
        byte(r, at + 1),
        byte(r, at + 2),
        byte(r, at + 3),
        byte(r, at + 4),
        byte(r, at + 5),
        byte(r, at + 6),
        byte(r, at + 7),
    ])
}

// The bytes from a place on, n of them as far as they are there.
pub fn part(r: &[u8], at: usize, n: usize) -> &[u8]
    ensures { result.now ≡ take n (drop at r.now) }
{
    let len = r.len();
    if len < at {
        return &r[len..len];
    }
    if len - at < n {
        return &r[at..len];
    }
    let end = at + n;
    &r[at..end]
}

// The position of the call.
pub fn position(r: &[u8]) -> BitPos
    ensures { result ≡ position_of r.now }
{
    BitPos {
        byte: number64(r, BYTE) as usize,
        bit: number32(r, BIT),
    }
}

// Whether the answer has the record's refusal and value; the record's number is 0 where nothing is refused.
pub fn same_value(r: &[u8], refusal: u8, value: u64) -> bool
    ensures { result ≡ same_value r.now refusal value }
{
    byte(r, REFUSAL) == refusal && number64(r, VALUE) == value
}

// Whether an answer is the record's: a refusal by its number, beside which the record has no value, and else what
// `right` says of what the answer holds.
pub fn same_answer<T, F: FnOnce(T) -> bool>(r: &[u8], answer: Result<T, Refusal>, right: F) -> bool
    requires { ForOk answer (F.pre right) }
    ensures { MatchResult answer (λ x. F.post right x result) (λ k. result ≡ same_value r.now (number k) 0) }
{
    match answer {
        Ok(x) => right(x),
        Err(k) => same_value(r, k.number(), 0),
    }
}

// Whether the position is the record's.
pub fn same_place(r: &[u8], p: BitPos) -> bool
    ensures { result ≡ same_place r.now p }
{
    number64(r, NEXT_BYTE) == p.byte as u64 && number32(r, NEXT_BIT) == p.bit
}

// Whether an answer that moves a position is the record's.
pub fn same_move(r: &[u8], answer: Result<BitPos, Refusal>) -> bool
    ensures { MatchResult answer (λ p. result ≡ same_value r.now 0 0 && same_place r.now p) (λ k. result ≡ same_value r.now (number k) 0) }
{
    same_answer(r, answer, |p| same_value(r, 0, 0) && same_place(r, p))
}

// Whether an answer that is a number is the record's.
pub fn same_number(r: &[u8], answer: Result<usize, Refusal>) -> bool
    ensures { MatchResult answer (λ n. result ≡ same_value r.now 0 n) (λ k. result ≡ same_value r.now (number k) 0) }
{
    same_answer(r, answer, |n| same_value(r, 0, n as u64))
}

// Whether y has the bits that the record has at a place. A NaN has no bits of its own, and no answer is one.
#[tactic(auto, unfolding(crate::specs::Records::same_float))]
pub fn same_float(r: &[u8], at: usize, y: f32) -> bool
    requires { at < 0x8000 }
    ensures { result ≡ same_float r.now at y }
{
    !y.is_nan() && y.to_bits() == number32(r, at)
}

// The f32 of these bits; there is one NaN here, whatever its bits.
fn float_of(bits: u32) -> f32
    ensures { result ≡ float_of bits }
{
    if 0x7f80_0000 < bits % 0x8000_0000 {
        return f32::NAN;
    }
    f32::from_bits(bits)
}

// The f32 at a place.
pub fn number(r: &[u8], at: usize) -> f32
    requires { at < 0x8000 }
    ensures { result ≡ float_of (at32 r.now at) }
{
    float_of(number32(r, at))
}

// Whether these have the bits that the record has from a place on, one after the other.
pub fn same_floats(r: &[u8], at: usize, y: &[f32]) -> bool
    requires { at + 4 * length y.now ≤ 0x8000 }
    ensures { (result ≡ true) ↔ ((i : ℕ) → i < length y.now → IfSome (slice_get y.now i) (λ x. same_float r.now (at + 4 * i) x ≡ true)) }
{
    y.iter()
        .enumerate()
        .all(|(i, x)| same_float(r, at + 4 * i, *x))
}

// The count with one more answer.
fn one_more(c: Count, ok: bool) -> Count
    ensures { result ≡ one_more c ok }
{
    Count {
        function: c.function,
        answers: c.answers.wrapping_add(1),
        wrong: if ok { c.wrong } else { c.wrong.wrapping_add(1) },
    }
}

// Prints a count behind the name of its function. No contract can say what is written.
pub fn print(rt: &impl Print, c: Count) {
    let _ = match Function::try_from(c.function) {
        Ok(function) => println!(rt; "{function}: {} answers, {} wrong", c.answers, c.wrong),
        Err(NoFunction) => println!(rt; "no function: {} answers, {} wrong", c.answers, c.wrong),
    };
}

// A function's count before its first answer.
pub fn new_count(function: u8) -> Count
    ensures { result ≡ new_count function }
{
    Count {
        function,
        answers: 0,
        wrong: 0,
    }
}

// The count after the answer to a record. The records stand by function: where the next one begins, the count of the
// last one is printed.
pub fn counted(rt: &impl Print, c: Count, r: &[u8], ok: bool) -> Count
    ensures { result ≡ count_after c (at8 r.now 0) ok }
{
    let function = byte(r, 0);
    if c.function == function {
        return one_more(c, ok);
    }
    if 0 < c.answers {
        print(rt, c);
    }
    one_more(new_count(function), ok)
}

// Reads the next record; false where the input has no whole one any more.
pub fn next<R: Read>(reader: &mut R, r: &mut [u8]) -> bool
    ensures { OnTrue result (Consumes (R.remaining reader.old) (R.remaining reader.new) r.new) }
{
    reader.read_exact(r).is_ok()
}

// Replays the records that the reader gives, each as long as the one that is lent, and returns the count that is still
// to be printed: `right` says whether the call of a record gives the record's answer. That no whole record is left then
// is not said, as read_exact says nothing of a reader at which it fails. A proved loop has to end, so it counts its
// turns, up to a number that no input uses up.
pub fn replay_from<R: Read, F: Fn(&[u8]) -> bool>(
    rt: &impl Print,
    reader: &mut R,
    r: &mut [u8],
    right: F,
) -> Count
    requires { F.IsAlwaysCallable right }
    ensures { (rest : _) × IsReplayed (λ bytes ok. (x : _) × (x.now ≡ bytes) × F.post right x ok) (length r.old)
        (R.remaining reader.old) rest result }
{
    let mut c = new_count(0);
    for _ in 0..u64::MAX {
        if !next(reader, &mut *r) {
            break;
        }
        c = counted(rt, c, &*r, right(&*r));
    }
    c
}

// Replays the records on standard input, and prints the counts of each function's answers. No contract can say which
// bytes the system's input gives, nor what is printed; replay_from says what is counted where a reader knows its bytes.
pub fn replay<F: Fn(&[u8]) -> bool>(rt: &HostRuntime, record: &mut [u8], right: F)
    requires { F.IsAlwaysCallable right }
{
    print(rt, replay_from(rt, &mut rt.stdin(), record, right));
}
