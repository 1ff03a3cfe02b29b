// The bins of a row with their vectors.
ghost use Rattle.std.specs.Prelude.{◌≡◌, ◌*◌, ◌<◌, ◌≤◌, length};
ghost use Rattle.channel.specs.Bins.{some_over};
ghost use Rattle.channel.specs.Row.{six_of};
ghost use Rattle.planner.specs.Planning.{too_large_at};

use channel::bins::Bins;

// The vectors are kept flat, six components a bin.
#[derive(Clone, Copy)]
pub struct BinVectors<'r, 'x> {
    pub bins: Bins<'r>,
    pub x: &'x [f32],
    pub ghost vectors: { 6 * bins.end ≤ length x.now },
}

impl<'x> BinVectors<'_, 'x> {
    // The six components of a bin.
    pub fn six(self, bin: usize) -> &'x [f32; 6]
        requires { bin < self.bins.end }
        ensures { result.now ≡ six_of self.entry.x.now bin }
    {
        let a = 6 * bin;
        let b = a + 6;
        &self.x[a..b].as_chunks::<6>().0[0]
    }

    fn too_large_at(self, bin: usize) -> bool
        requires { bin < self.bins.end }
        ensures { result ≡ too_large_at self.entry.bins.row.now self.entry.x.now bin }
    {
        if self.bins.row[bin] == 0 {
            return false;
        }
        levels::any_too_large(self.six(bin))
    }

    // Whether a component of a bin whose hebap is not 0 is too large.
    pub fn any_too_large(self) -> bool
        ensures { result ≡ some_over (too_large_at self.entry.bins.row.now self.entry.x.now) self.entry.bins.start self.entry.bins.end }
    {
        (self.bins.start..self.bins.end).any(|bin| self.too_large_at(bin))
    }
}
