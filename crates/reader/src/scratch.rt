// The buffers that a field is read into.
ghost use Rattle.std.specs.Prelude.{◌≡◌, ◌-◌, ◌*◌, ◌^◌, ◌<◌, ◌≤◌, length, take, drop};
ghost use Rattle.bits.specs.Bits.{splice};
ghost use Rattle.tables.specs.Tables.{vq_bits};
ghost use Rattle.books.specs.Books.{vq_lookup, vq_exact};
ghost use Rattle.channel.specs.Field.{none, book, nothing, index};
ghost use Rattle.channel.specs.Shown.{joined};
ghost use Rattle.reader.specs.Work.{BinPut};

use channel::bins::Bins;

// Six f32, six exact values and an index for each bin of a row: as many as the longest row has.
#[derive(Drop)]
pub struct Scratch {
    pub values: [[f32; 6]; 256],
    pub exact: [[i32; 6]; 256],
    pub indices: [u16; 256],
}

// The vector at an index of the book is the row.
fn put_vector_row(hebap: u8, index: usize, values: &mut [f32; 6], exact: &mut [i32; 6])
    requires { (1 ≤ hebap) × (hebap ≤ 7) × (index < 2 ^ vq_bits hebap) }
    ensures values_after { values.new ≡ vq_lookup hebap index }
    ensures exact_after { exact.new ≡ vq_exact hebap index }
{
    books::put_vector(hebap, index, 0, values, exact)
}

impl Scratch {
    // The vector at an index of the book goes to the bin's places, with the index.
    pub fn put_index(&mut self, hebap: u8, i: u32, bin: usize)
        requires le_hebap { (1 ≤ hebap) × (hebap ≤ 7) × (i < 2 ^ vq_bits hebap) }
        requires bin_bound { bin < 256 }
        ensures { BinPut bin (book hebap) self.old self.new (index i) }
    {
        put_vector_row(
            hebap,
            i as usize,
            &mut self.values[bin],
            &mut self.exact[bin],
        );
        self.indices[bin] = i as u16;
    }

    // Zeros for a bin that has no bits in the field.
    pub fn put_zeros(&mut self, bin: usize)
        requires { bin < 256 }
        ensures { BinPut bin none self.old self.new nothing }
    {
        self.values[bin] = [0.0; 6];
        self.exact[bin] = [0; 6];
        self.indices[bin] = 0;
    }

    // Copies what stands for the bins to the same places of the outputs.
    pub fn hand_out(&self, bins: Bins, values: &mut [f32], exact: &mut [i32], indices: &mut [u16])
        requires { (6 * bins.end ≤ length values.old) × (6 * bins.end ≤ length exact.old) × (bins.end ≤ length indices.old) }
        ensures values_after { values.new ≡ splice values.old (6 * bins.entry.start)
            (joined (take (bins.entry.end - bins.entry.start) (drop bins.entry.start self.now.values))) }
        ensures exact_after { exact.new ≡ splice exact.old (6 * bins.entry.start)
            (joined (take (bins.entry.end - bins.entry.start) (drop bins.entry.start self.now.exact))) }
        ensures indices_after { indices.new ≡ splice indices.old bins.entry.start
            (take (bins.entry.end - bins.entry.start) (drop bins.entry.start self.now.indices)) }
    {
        let a = bins.start;
        let b = bins.end;
        values[6 * a..6 * b].copy_from_slice(self.values[a..b].as_flattened());
        exact[6 * a..6 * b].copy_from_slice(self.exact[a..b].as_flattened());
        indices[a..b].copy_from_slice(&self.indices[a..b]);
    }
}
