// A book opened once for a call: its refusal, or what the call needs of it; then what the call asks of it, one condition after the other.
ghost use Rattle.std.specs.Prelude.{ℕ, List, [], ◌∷◌, ◌++◌};
ghost use Rattle.answers.specs.Calls.{Condition, activity_asked, date_asked};
ghost use Rattle.answers.specs.Opened.{IsAsked};

use crate::is_date;
use book::layout::{Ledger, Plan, read_layout};
use format::{EtcTechnique, EvTechnique, Reason, Refusal};

// The data date, the technique, the forecast and the lists of an accepted book.
#[derive(Clone, Copy)]
pub struct Opened {
    pub date: Option<u64>,
    pub technique: EvTechnique,
    pub forecast: EtcTechnique,
    pub plan: Plan,
    pub ledger: Ledger,
}

impl Opened {
    // Asked for an activity besides: refused where it is not in the book.
    pub fn with_activity(self, activity: u64) -> Result<Opened, Refusal>
        ensures { (conditions : List Condition) (s : List ℕ) → IsAsked conditions s (Ok self) → IsAsked (conditions ++ (activity_asked activity ∷ [])) s result }
    {
        if activity < self.plan.activities.count {
            return Ok(self);
        }
        Err(Refusal {
            reason: Reason::UnknownActivity,
            place: 0,
        })
    }

    // Asked for a date besides: refused where it is outside D's range.
    pub fn with_date(self, date: u64) -> Result<Opened, Refusal>
        ensures { (conditions : List Condition) (s : List ℕ) → IsAsked conditions s (Ok self) → IsAsked (conditions ++ (date_asked date ∷ [])) s result }
    {
        if is_date(date) {
            return Ok(self);
        }
        Err(Refusal {
            reason: Reason::DateOutOfRange,
            place: 0,
        })
    }
}

// The book's layout, read once.
pub fn open(book: &[u8]) -> Result<Opened, Refusal>
    ensures { IsAsked [] book.now result }
{
    let layout = read_layout(book);
    layout.end?;
    let header = layout.header;
    Ok(Opened {
        date: header.date,
        technique: header.technique,
        forecast: header.forecast,
        plan: layout.plan,
        ledger: layout.ledger,
    })
}

// The book opened, asked for a date.
pub fn open_at(book: &[u8], date: u64) -> Result<Opened, Refusal>
    ensures { IsAsked (date_asked date ∷ []) book.now result }
{
    open(book)?.with_date(date)
}

// Asked for two dates, the first of them first.
pub fn open_between(book: &[u8], from: u64, to: u64) -> Result<Opened, Refusal>
    ensures { IsAsked (date_asked from ∷ date_asked to ∷ []) book.now result }
{
    open_at(book, from)?.with_date(to)
}

// Asked for an activity.
pub fn open_on(book: &[u8], activity: u64) -> Result<Opened, Refusal>
    ensures { IsAsked (activity_asked activity ∷ []) book.now result }
{
    open(book)?.with_activity(activity)
}

// What was asked before, asked for an activity besides: a refusal stays.
pub fn ask_activity(asked: Result<Opened, Refusal>, activity: u64) -> Result<Opened, Refusal>
    ensures { (conditions : List Condition) (s : List ℕ) → IsAsked conditions s asked → IsAsked (conditions ++ (activity_asked activity ∷ [])) s result }
{
    asked?.with_activity(activity)
}

// The same with a date.
pub fn ask_date(asked: Result<Opened, Refusal>, date: u64) -> Result<Opened, Refusal>
    ensures { (conditions : List Condition) (s : List ℕ) → IsAsked conditions s asked → IsAsked (conditions ++ (date_asked date ∷ [])) s result }
{
    asked?.with_date(date)
}

// Asked for an activity and then for a date.
pub fn open_for(book: &[u8], activity: u64, date: u64) -> Result<Opened, Refusal>
    ensures { IsAsked (activity_asked activity ∷ date_asked date ∷ []) book.now result }
{
    ask_date(ask_activity(open(book), activity), date)
}
