// The twenty refusals of 01's table, with their numbers.
ghost use Rattle.std.specs.Prelude.{◌≡◌};
ghost use Rattle.record.specs.Refusals.{number_of};

#[derive(Clone, Copy, Debug, PartialEq, Eq)]
pub enum Refusal {
    CutOff = 1,
    BadMark = 2,
    BadHead = 3,
    TooMany = 4,
    BadOrder = 5,
    Tail = 6,
    BadState = 7,
    BadImage = 8,
    Outside = 9,
    BadStart = 10,
    Behind = 11,
    Gap = 12,
    Short = 13,
    NotExact = 14,
    Compared = 15,
    Apart = 16,
    NoRoom = 17,
    ShelfFull = 18,
    NoChain = 19,
    BadGid = 20,
}

impl Refusal {
    // Its number in the table: a public call, so no `From`.
    pub fn number(self) -> u32
        ensures { result ≡ number_of self }
    {
        self as u32
    }
}
