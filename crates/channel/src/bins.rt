// The bins of a row that are coded.
ghost use Rattle.std.specs.Prelude.{◌≡◌, ◌≤◌, ◌<◌, false, length, get_or};
ghost use Rattle.channel.specs.Bins.{some_over};
ghost use Rattle.channel.specs.Row.{unknown_at, active_count};

// The bins start to end - 1 of a row, none of whose hebaps is above 19: none of causes 1 to 4 holds.
#[derive(Clone, Copy)]
pub struct Bins<'a> {
    pub row: &'a [u8],
    pub start: usize,
    pub end: usize,
    pub ghost ordered: { start ≤ end },
    pub ghost few: { end ≤ 256 },
    pub ghost rows: { end ≤ length row.now },
    pub ghost known: { some_over (unknown_at row.now) start end ≡ false },
}

impl Bins<'_> {
    // The hebap of a bin.
    pub fn hebap(self, bin: usize) -> u8
        requires { bin < self.end }
        ensures { result ≡ get_or self.entry.row.now bin 0 }
    {
        self.row[bin]
    }

    // How many bins are active in a mode.
    pub fn count_active(self, mode: u8) -> usize
        ensures { result ≡ active_count mode self.entry.row.now self.entry.start self.entry.end }
    {
        super::count_active(self.row, self.start, self.end, mode)
    }
}
