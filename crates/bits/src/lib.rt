// Bits of bytes, most significant first: a position by value, numbers read there and written there.
#![tactic(auto)]

ghost use Rattle.std.specs.Prelude.{◌≡◌, ◌+◌, ◌*◌, ◌<◌, ◌≤◌, ◌^◌, leb, length, take, drop, get_or};
ghost use Rattle.bits.specs.Bits.{bits_of, bits_n, number_of, splice, bit_at, pos_of, read_u32, write_u32, written};
ghost use Rattle.bits.specs.Work.{byte_with};

use answers::Refusal;

pub mod field_reader;

// The bit 8 * byte + bit.
#[derive(Clone, Copy)]
pub struct BitPos {
    pub byte: usize,
    pub bit: u32,
}

// 2^k: products and modulo in place of masks, since the proofs are about numbers.
pub fn pow2(k: u32) -> u32
    requires { k < 32 }
    ensures { result ≡ 2 ^ k }
{
    1 << k
}

// How many of the `left` bits still wanted stand in a byte from its bit r on.
fn step(r: u32, left: u32) -> u32
    requires { (r < 8) × (0 < left) }
    ensures { (0 < result) × (result ≤ left) × (r + result ≤ 8) }
{
    if left < 8 - r { left } else { 8 - r }
}

// The number that n bits show, from the bit r of the byte q on, a byte at a time. A step takes what its byte still has,
// so no range counts the steps.
fn by_bytes(src: &[u8], q: usize, r: u32, n: u32) -> u32
    requires { (n ≤ 32) × (r < 8) × (8 * q + r + n ≤ 8 * length src.now) }
    ensures { result ≡ number_of (take n (drop (8 * q + r) (bits_of src.now))) }
{
    let mut v: u32 = 0;
    let mut i: u32 = 0;
    let mut b: usize = q;
    let mut p: u32 = r;
    while i < n {
        let c = step(p, n - i);
        let x = u32::from(src[b]);
        let k = 8 - p - c;
        v = v * pow2(c) + (x >> k) % pow2(c);
        i += c;
        b += ((p + c) / 8) as usize;
        p = (p + c) % 8;
    }
    v
}

// Four bytes as one big-endian number.
fn four_bytes(src: &[u8], q: usize) -> u32
    requires { q + 4 ≤ length src.now }
    ensures upper_bound { result < 2 ^ 32 }
    ensures src_value { take 32 (drop (8 * q) (bits_of src.now)) ≡ bits_n 32 result }
{
    u32::from_be_bytes([src[q], src[q + 1], src[q + 2], src[q + 3]])
}

// The number that n bits show, from the bit r of the byte q on, where they stand in four bytes.
fn from_four(src: &[u8], q: usize, r: u32, n: u32) -> u32
    requires { (0 < n) × (r + n < 32) × (q + 4 ≤ length src.now) }
    ensures { result ≡ number_of (take n (drop (8 * q + r) (bits_of src.now))) }
{
    (four_bytes(src, q) >> (32 - r - n)) % pow2(n)
}

// The number that n bits show, from the bit r of the byte q on: out of four bytes at once where that will do.
fn number_at(src: &[u8], q: usize, r: u32, n: u32) -> u32
    requires { (n ≤ 32) × (r < 8) × (8 * q + r + n ≤ 8 * length src.now) }
    ensures { result ≡ number_of (take n (drop (8 * q + r) (bits_of src.now))) }
{
    if 0 < n {
        if r + n < 32 {
            if q + 4 <= src.len() {
                return from_four(src, q, r, n);
            }
        }
    }
    by_bytes(src, q, r, n)
}

// The byte x with the c bits of w written at its bit r.
fn patched(x: u8, r: u32, c: u32, w: u32) -> u8
    requires { (r + c ≤ 8) × (w < 2 ^ c) }
    ensures { result ≡ byte_with x r c w }
{
    let k = 8 - r - c;
    let o = u32::from(x);
    (((o >> (c + k)) * pow2(c) + w) * pow2(k) + o % pow2(k)) as u8
}

// Writes the low n bits of v from the bit r of the byte q on, a byte at a time, in the same steps.
fn put_bits(out: &mut [u8], q: usize, r: u32, v: u32, n: u32)
    requires { (n ≤ 32) × (r < 8) × (8 * q + r + n ≤ 8 * length out.old) }
    ensures { bits_of out.new ≡ splice (bits_of out.old) (8 * q + r) (bits_n n v) }
{
    let mut i: u32 = 0;
    let mut b: usize = q;
    let mut p: u32 = r;
    while i < n {
        let c = step(p, n - i);
        let w = (v >> (n - i - c)) % pow2(c);
        out[b] = patched(out[b], p, c, w);
        i += c;
        b += ((p + c) / 8) as usize;
        p = (p + c) % 8;
    }
}

impl BitPos {
    // The bounds check: count numbers of width bits stand in len bytes from here on. 7 * (2^64 / 8) does not wrap.
    pub fn has_bits(self, len: usize, width: u32, count: usize) -> bool
        requires width_bound { width ≤ 7 }
        requires len_bound { len < 2 ^ 63 }
        ensures { result ≡ leb (bit_at self + width * count) (8 * len) }
    {
        let byte = self.byte;
        let bit = self.bit;
        if len < byte {
            return false;
        }
        let q = byte + (bit / 8) as usize;
        if len < q {
            return false;
        }
        let whole = (width as usize) * (count / 8);
        let part = (bit % 8) as usize + (width as usize) * (count % 8);
        whole + (part + 7) / 8 <= len - q
    }

    // The position behind count numbers of width bits, bounds-checked before (has_bits).
    pub fn advance(self, width: u32, count: usize) -> BitPos
        requires width_bound { width ≤ 7 }
        requires count_bound { bit_at self + width * count < 2 ^ 66 }
        ensures { result ≡ pos_of (bit_at self + width * count) }
    {
        let byte = self.byte;
        let bit = self.bit;
        let part = bit as usize + (width as usize) * (count % 8);
        BitPos {
            byte: byte + (width as usize) * (count / 8) + part / 8,
            bit: (part % 8) as u32,
        }
    }

    // The number that the next n bits show, bounds-checked before (has_bits).
    pub fn peek(self, src: &[u8], n: u32) -> u32
        requires { (n ≤ 32) × (bit_at self + n ≤ 8 * length src.now) }
        ensures { result ≡ number_of (take n (drop (bit_at self) (bits_of src.now))) }
    {
        let byte = self.byte;
        let bit = self.bit;
        number_at(src, byte + (bit / 8) as usize, bit % 8, n)
    }

    // The position n bits on, for a position whose bit is below 8: fewer steps than `advance`.
    pub fn advance_bits(self, n: u32) -> BitPos
        requires { (self.bit < 8) × (n ≤ 65536) × (self.byte < 2 ^ 63) }
        ensures { result ≡ pos_of (bit_at self + n) }
    {
        let byte = self.byte;
        let bit = self.bit;
        BitPos {
            byte: byte + ((bit + n) / 8) as usize,
            bit: (bit + n) % 8,
        }
    }

    // The number that the next n bits show, out of four bytes: for loops that were bounds-checked as a whole.
    pub fn peek_word(self, src: &[u8], n: u32) -> u32
        requires { (0 < n) × (n ≤ 24) × (self.bit < 8) × (self.byte + 4 ≤ length src.now) }
        ensures { result ≡ number_of (take n (drop (bit_at self) (bits_of src.now))) }
    {
        let byte = self.byte;
        let bit = self.bit;
        from_four(src, byte, bit, n)
    }

    // The next n bits as an unsigned number. Refuses with 12, then 8.
    pub fn read_u32(self, src: &[u8], n: u32) -> Result<(u32, BitPos), Refusal>
        ensures { result ≡ read_u32 src.now (bit_at self) n }
    {
        if 32 < n {
            return Err(Refusal::OutOfRange);
        }
        if self.has_bits(src.len(), 1, n as usize) {
            Ok((self.peek(src, n), self.advance(1, n as usize)))
        } else {
            Err(Refusal::InputEnds)
        }
    }

    // Writes the low n bits of v here. Refuses with 12, then 7.
    pub fn write_u32(self, out: &mut [u8], v: u32, n: u32) -> Result<BitPos, Refusal>
        ensures value { result ≡ write_u32 out.old (bit_at self) n }
        ensures out_after { out.new ≡ written out.old (bit_at self) v n }
    {
        let byte = self.byte;
        let bit = self.bit;
        if 32 < n {
            return Err(Refusal::OutOfRange);
        }
        if self.has_bits(out.len(), 1, n as usize) {
            let q = byte + (bit / 8) as usize;
            let r = bit % 8;
            put_bits(out, q, r, v, n);
            Ok(self.advance(1, n as usize))
        } else {
            Err(Refusal::OutputFull)
        }
    }
}
