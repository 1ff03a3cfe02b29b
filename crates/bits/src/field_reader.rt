// A field's bytes, read from a position on.
ghost use Rattle.std.specs.Prelude.{◌≡◌, ◌+◌, ◌*◌, ◌<◌, ◌≤◌, ◌^◌, leb, length, Ok, OnErr};
ghost use Rattle.bits.specs.Bits.{number_of, bit_at, pos_of, Inside};
ghost use Rattle.bits.specs.Format.{number};

use super::BitPos;
use answers::Refusal;

// The position lies in the bytes or just behind them, its bit below 8.
#[derive(Clone, Copy)]
pub struct FieldReader<'a> {
    pub src: &'a [u8],
    pub pos: BitPos,
    pub ghost inside: { Inside (8 * length src.now) pos },
}

impl<'a> FieldReader<'a> {
    ghost use Rattle.bits.specs.Takes.{ahead, Takes};

    // From a position on, whose bit may be above 7.
    pub fn new(src: &'a [u8], pos: BitPos) -> FieldReader<'a>
        requires inside { bit_at pos ≤ 8 * length src.now }
        ensures place { result.pos ≡ pos_of (bit_at pos) }
        ensures bytes { result.src.now ≡ src.now }
    {
        FieldReader {
            src,
            pos: pos.advance(1, 0),
        }
    }

    // The next n bits as an unsigned number. Refuses with 8, and stays where it is then.
    pub fn read_u32(&mut self, n: u32) -> Result<u32, Refusal>
        requires { n ≤ 32 }
        ensures reads { Takes (λ v. v) ((number n).dec (ahead self.old)) result (λ v. v < 2 ^ n) self.old self.new }
        ensures kept { OnErr result (self.new ≡ self.old) }
    {
        let (v, next) = self.pos.read_u32(self.src, n)?;
        self.pos = next;
        Ok(v)
    }

    // Whether so many bytes stand from the position's own on.
    pub fn has_bytes(&self, n: usize) -> bool
        requires { n < 65536 }
        ensures { result ≡ leb (self.now.pos.byte + n) (length self.now.src.now) }
    {
        self.pos.byte + n <= self.src.len()
    }

    // The next n bits out of four bytes, which are there.
    #[inline(always)]
    pub fn take_word(&mut self, n: u32) -> u32
        requires few { (0 < n) × (n ≤ 24) }
        requires four { self.old.pos.byte + 4 ≤ length self.old.src.now }
        ensures reads { Takes (λ v. v) ((number n).dec (ahead self.old)) (Ok result) (λ v. v < 2 ^ n) self.old self.new }
        ensures place { self.new.pos ≡ pos_of (bit_at self.old.pos + n) }
    {
        let v = self.pos.peek_word(self.src, n);
        self.pos = self.pos.advance_bits(n);
        v
    }
}
