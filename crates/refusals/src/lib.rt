// Document 01's refusals: why an entry refuses, by the numbers of its table, and where.
#![tactic(auto)]

ghost use Rattle.std.specs.Prelude.{◌≡◌};
ghost use Rattle.refusals.specs.Numbers.{number_of, refused};

// Why an entry refuses, with document 01's number.
#[derive(Clone, Copy, Debug, PartialEq, Eq)]
pub enum Reason {
    CodeTooLong = 1,
    PoolTooLong = 2,
    PastEnd = 3,
    NotAnInstruction = 4,
    NotAfterWide = 5,
    NoEntry = 6,
    WrongKind = 7,
    NotZero = 8,
    NoArrayTag = 9,
    BadBounds = 10,
    NegativeCount = 11,
    BelowZero = 12,
    NoTarget = 13,
    NoEntryLeft = 14,
    NoRecordLeft = 15,
    OverTheLimit = 21,
    TypeDue = 22,
    NoSuchType = 23,
    Dimension256 = 24,
    EmptySegment = 25,
    BarredByte = 26,
    NameNotEnded = 27,
    LoneSemicolon = 28,
    NoParenthesis = 29,
    NoPartLeft = 30,
    LeftOver = 31,
    NameNotValid = 32,
    TooShort = 33,
    BrokenParts = 34,
    NotSorted = 35,
}

// A refusal, and where: an offset in the code, or a place in a text.
#[derive(Clone, Copy, Debug, PartialEq, Eq)]
pub struct Refusal<Place> {
    pub reason: Reason,
    pub place: Place,
}

impl Reason {
    // A method, no `From`: the number is said of the reason, and read as that.
    pub fn number(self) -> u32
        ensures { result ≡ number_of self }
    {
        self as u32
    }

    // The refusal for this reason at a place.
    pub fn at<Place>(self, place: Place) -> Refusal<Place>
        ensures { result ≡ refused self place }
    {
        Refusal {
            reason: self,
            place,
        }
    }
}
