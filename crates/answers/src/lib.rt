// Why a call refuses, and its number. include/fathrugg.h has the same names for C.
#![tactic(auto)]

ghost use Rattle.std.specs.Prelude.{◌≡◌};
ghost use Rattle.answers.specs.Causes.{number};

// The causes, by the numbers of docs/FORMAT.md, which never change their meaning.
#[derive(Clone, Copy, Debug, PartialEq, Eq)]
pub enum Refusal {
    // start is above end
    StartAboveEnd = 1,
    // end is above 256
    EndAbove256 = 2,
    // the row, the vectors or an output is too short for the bins
    TooShort = 3,
    // a hebap is above 19
    HebapAbove19 = 4,
    // a component is NaN, infinite or too large
    Component = 5,
    // the plan does not fit the row and the vectors
    PlanMisfit = 6,
    // the output is too short from the position on, or for the pages, or the position is past its end
    OutputFull = 7,
    // the input runs out, or the position is past its end
    InputEnds = 8,
    // a group word of gains is above 26
    GroupWord = 9,
    // an unused code of the last group word is not 0
    UnusedCode = 10,
    // the quantiser is asked for a hebap or gain that it does not have
    NoQuantiser = 11,
    // a mode is above 3, a count of bits above 32, or a mask outside -65536 to 65536
    OutOfRange = 12,
    // the desk's text is malformed
    Text = 13,
}

impl Refusal {
    // 1 to 13; C has 0 for no refusal.
    pub fn number(self) -> u8
        ensures { result ≡ number self }
    {
        self as u8
    }
}
