// Types that the definitions of the book's format share with the code over it.
#![tactic(auto)]

ghost use Rattle.std.specs.Prelude.{◌≡◌};
ghost use Rattle.format.specs.Refusals.{reason_number};

mod numbers;

// Why a book or a call is refused, in the order of the table of refusals.
#[derive(Clone, Copy, Debug, PartialEq, Eq)]
pub enum Reason {
    // The book is over 60,000 bytes.
    BookTooLong,
    // It ends where a byte is still due.
    EndsEarly,
    // A number is not in its shortest form, or is too large.
    NotShortest,
    // A value or an index is out of range.
    OutOfRange,
    // A count is.
    CountOutOfRange,
    // Dates do not rise, or a budget is named twice.
    OutOfOrder,
    // There are bytes after the last section.
    BytesLeft,
    // An asked activity is not in the book.
    UnknownActivity,
    // An asked date is outside D's range.
    DateOutOfRange,
    // A lent slice is too short for the rows.
    TooShort,
    // A twelve-month sum is outside 64 bits.
    SumOutOfRange,
}

// Its number in the table.
impl From<Reason> for u64 {
    ghost from_gives = { λ reason number. number ≡ reason_number reason };

    fn from(reason: Reason) -> u64 {
        match reason {
            Reason::BookTooLong => 1,
            Reason::EndsEarly => 2,
            Reason::NotShortest => 3,
            Reason::OutOfRange => 4,
            Reason::CountOutOfRange => 5,
            Reason::OutOfOrder => 6,
            Reason::BytesLeft => 7,
            Reason::UnknownActivity => 8,
            Reason::DateOutOfRange => 9,
            Reason::TooShort => 10,
            Reason::SumOutOfRange => 11,
        }
    }
}

// A refusal: why, and at which place.
#[derive(Clone, Copy, Debug, PartialEq, Eq)]
pub struct Refusal {
    pub reason: Reason,
    pub place: usize,
}

// A reading position: where reading goes on, or the refusal. A refused position stays refused.
pub type Pos = Result<usize, Refusal>;

// One number: its value and the place after it, or the refusal.
pub type Num = Result<(u64, usize), Refusal>;

// Where an activity stands.
#[derive(Clone, Copy)]
pub enum Status {
    NotStarted,
    InProgress,
    Completed,
}

// How earned value is measured. The custom share, earned at the start, is in hundredths of a percent.
#[derive(Clone, Copy)]
pub enum EvTechnique {
    Physical,
    Duration,
    Units,
    ZeroHundred,
    FiftyFifty,
    Custom(i64),
}

// How the cost to complete is estimated.
#[derive(Clone, Copy)]
pub enum EtcTechnique {
    Remaining,
    Planned,
    Cpi,
    CpiSpi,
}

// What a resource is.
#[derive(Clone, Copy)]
pub enum ResourceKind {
    Labor,
    Nonlabor,
    Material,
}

// When an expense's cost is counted.
#[derive(Clone, Copy)]
pub enum Accrual {
    Start,
    End,
    Uniform,
}

// What became of a change to a budget.
#[derive(Clone, Copy)]
pub enum ChangeStatus {
    Pending,
    Approved,
    NotApproved,
}

// Whose holidays a calendar keeps besides its own.
#[derive(Clone, Copy)]
pub enum Region {
    None,
    Brazil,
}
