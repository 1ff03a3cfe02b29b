// What a bin costs at each gain.
ghost use Rattle.std.specs.Prelude.{◌≡◌, ◌≤◌};

// The bits of a bin's six codes at each gain.
#[derive(Clone, Copy)]
pub struct Costs {
    pub one: u32,
    pub two: u32,
    pub four: u32,
    pub ghost few: { (one ≤ 256) × (two ≤ 256) × (four ≤ 256) },
}

impl Costs {
    ghost use Rattle.planner.specs.Choice.{cheaper};
    ghost use Rattle.planner.specs.Work.{cost_in, gain_in};

    pub fn at(self, gain: u8) -> u32
        ensures { result ≡ cost_in self gain }
    {
        match gain {
            1 => self.one,
            2 => self.two,
            _ => self.four,
        }
    }

    fn cheaper(self, gain: u8, next: u8) -> u8
        ensures { result ≡ cheaper (cost_in self) gain next }
    {
        if self.at(next) < self.at(gain) {
            next
        } else {
            gain
        }
    }

    // The cheapest gain that the mode allows, the lower one of equals.
    pub fn best_gain(self, mode: u8) -> u8
        ensures { result ≡ gain_in mode self }
    {
        match mode {
            1 => self.cheaper(1, 2),
            2 => self.cheaper(1, 4),
            3 => self.cheaper(self.cheaper(1, 2), 4),
            _ => 1,
        }
    }
}
