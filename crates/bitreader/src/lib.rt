// A reader that keeps the bytes and the position of the next bit, as the Rust has it. Its functions are thin, and leave
// the work to those over a plain slice. Callers with such a slice use read_three, or bits' BitPos.
#![tactic(auto)]

ghost use Rattle.std.specs.Prelude.{◌≡◌};
ghost use Rattle.bitreader.specs.Reads.{at_start, answered, read_on, all_three, three_from};

use answers::Refusal;
use bits::BitPos;

// The Rust's BitReader: the bytes and the position of the next bit.
#[derive(Drop)]
pub struct BitReader<'a> {
    pub src: &'a [u8],
    pub pos: BitPos,
}

// Three numbers and the position behind them.
#[derive(Clone, Copy)]
pub struct Three {
    pub first: u32,
    pub second: u32,
    pub third: u32,
    pub pos: BitPos,
}

impl<'a> BitReader<'a> {
    // A reader at the start of the bytes.
    pub fn new(src: &'a [u8]) -> BitReader<'a>
        ensures { result ≡ at_start src.entry }
    {
        BitReader {
            src,
            pos: BitPos { byte: 0, bit: 0 },
        }
    }

    // The next n bits as an unsigned number, and the reader moves behind them. Refuses with 12, then 8, and stays.
    pub fn read_u32(&mut self, n: u32) -> Result<u32, Refusal>
        ensures { (result ≡ answered self.old n) × (self.new ≡ read_on self.old n) }
    {
        let (v, next) = self.pos.read_u32(self.src, n)?;
        self.pos = next;
        Ok(v)
    }
}

// Three answers as one.
fn all_three(
    x: Result<u32, Refusal>,
    y: Result<u32, Refusal>,
    z: Result<u32, Refusal>,
    pos: BitPos,
) -> Result<Three, Refusal>
    ensures { result ≡ all_three x y z pos }
{
    Ok(Three {
        first: x?,
        second: y?,
        third: z?,
        pos,
    })
}

// The numbers of a, b and c bits that stand one after another from a position on, read through a reader. Every read is
// made: where one refuses, the first refusal is the answer, whatever the later ones say.
pub fn read_three(src: &[u8], pos: BitPos, a: u32, b: u32, c: u32) -> Result<Three, Refusal>
    ensures { result ≡ three_from src.now pos a b c }
{
    let mut reader = BitReader::new(src);
    reader.pos = pos;
    let x = reader.read_u32(a);
    let y = reader.read_u32(b);
    let z = reader.read_u32(c);
    all_three(x, y, z, reader.pos)
}
