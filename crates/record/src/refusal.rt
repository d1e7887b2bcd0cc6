// The refusals of documents 01 and 02 by name.
#![tactic(auto)]

ghost use Rattle.std.specs.Prelude.{◌≡◌};
ghost use Rattle.record.specs.Refusals.{number_of};

// Why a request is refused; the papers' numbers.
#[derive(Clone, Copy, Debug, PartialEq, Eq)]
pub enum Refusal {
    TooLong = 1,
    Cut = 2,
    LineEnd = 3,
    Length = 4,
    Byte = 5,
    Header = 6,
    Keyword = 7,
    Number = 8,
    Letters = 9,
    Code = 10,
    Count = 11,
    OpenRing = 12,
    AfterEof = 13,
    NoRoom = 14,
    NotMade = 15,
    TooWide = 17,
    PastLimit = 18,
    NoSuch = 19,
    OffTile = 20,
    BadDate = 21,
    LongCode = 22,
    WideFigure = 23,
}

impl Refusal {
    // The number that C is told.
    pub fn number(self) -> usize
        ensures { result ≡ number_of self }
    {
        self as usize
    }
}
