// One bin of a field.
ghost use Rattle.std.specs.Prelude.{◌<◌, ◌≤◌};
ghost use Rattle.bits.specs.Takes.{ahead, Takes};
ghost use Rattle.tables.specs.Tables.{mant_bits};
ghost use Rattle.levels.specs.Codes.{six};
ghost use Rattle.scalars.specs.Work.{SixLeft};
ghost use Rattle.channel.specs.Field.{book, scalar, lenient, item, bin_of};
ghost use Rattle.reader.specs.Work.{BinPut};

use super::scratch::Scratch;
use answers::Refusal;
use bits::field_reader::FieldReader;
use gains::Coding;
use levels::CodeScale;

// The index of a book bin. Four bytes ahead are bounds check enough: an index has 9 bits at most.
pub fn read_index(
    reader: &mut FieldReader,
    hebap: u8,
    bin: usize,
    scratch: &mut Scratch,
) -> Result<(), Refusal>
    requires le_hebap { (1 ≤ hebap) × (hebap ≤ 7) }
    requires bin_bound { bin < 256 }
    ensures { Takes (λ x. tt {0}) ((item lenient (book hebap)).dec (ahead reader.old)) result
        (BinPut bin (book hebap) scratch.old scratch.new) reader.old reader.new }
{
    let n = tables::vq_bits(hebap) as u32;
    let index = if reader.has_bytes(4) {
        reader.take_word(n)
    } else {
        reader.read_u32(n)?
    };
    scratch.put_index(hebap, index, bin);
    Ok(())
}

// The six codes of a scale: their values, as f32 and exact, are the row.
fn read_row(
    reader: &mut FieldReader,
    s: CodeScale,
    values: &mut [f32; 6],
    exact: &mut [i32; 6],
) -> Result<(), Refusal>
    ensures { Takes (λ cs. tt) ((six (mant_bits s.hebap) s.gk).dec (ahead reader.old)) result (SixLeft s.hebap s.gk values.new exact.new) reader.old reader.new }
{
    scalars::read_six(reader, s, 0, values, exact)
}

// The six codes of a scalar bin: their values, as f32 and exact, and 0 for the index go to the bin's places.
pub fn read_codes(
    reader: &mut FieldReader,
    s: CodeScale,
    bin: usize,
    scratch: &mut Scratch,
) -> Result<(), Refusal>
    requires { bin < 256 }
    ensures { Takes (λ x. tt {0}) ((item lenient (scalar s.hebap s.gk)).dec (ahead reader.old)) result
        (BinPut bin (scalar s.hebap s.gk) scratch.old scratch.new) reader.old reader.new }
{
    scratch.indices[bin] = 0;
    read_row(reader, s, &mut scratch.values[bin], &mut scratch.exact[bin])
}

// A bin: six values, six exact values and an index go to its places.
pub fn read_bin(
    reader: &mut FieldReader,
    mode: u8,
    hebap: u8,
    gk: u8,
    bin: usize,
    scratch: &mut Scratch,
) -> Result<(), Refusal>
    requires hebap_bound { hebap ≤ 19 }
    requires bin_bound { bin < 256 }
    ensures { Takes (λ x. tt {0}) ((item lenient (bin_of mode hebap gk)).dec (ahead reader.old)) result
        (BinPut bin (bin_of mode hebap gk) scratch.old scratch.new) reader.old reader.new }
{
    match gains::coding_of(mode, hebap) {
        Coding::Nothing => {
            scratch.put_zeros(bin);
            Ok(())
        }
        Coding::Book => read_index(reader, hebap, bin, scratch),
        Coding::Fixed => read_codes(reader, levels::scale_at(hebap, 1), bin, scratch),
        Coding::Adaptive => read_codes(reader, levels::scale_at(hebap, gk), bin, scratch),
    }
}
