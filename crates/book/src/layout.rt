// The layout of the whole book, and the verdict on it.
ghost use Rattle.std.specs.Prelude.{◌≡◌, ◌≤◌};
ghost use Rattle.format.specs.Book.{Book};
ghost use Rattle.format.specs.Verdict as verdict;
ghost use Rattle.book.specs.Layout.{IsHeader, IsPlan, IsBaseline, IsLedger, IsLayout, book_of};
ghost use Rattle.format.specs.Position.{Pos};

use fields::kinds::{field, optional_date};
use format::{EtcTechnique, EvTechnique, Pos, Reason, Refusal};
use records::techniques::read_technique;
use sections::Section;
use sections::budgets::{read_amounts, read_budgets};
use sections::elements::{Element, read_activities, read_elements};

// What leads the book.
#[derive(Clone, Copy)]
pub struct Header {
    pub edition: u64,
    pub date: Option<u64>,
    pub technique: EvTechnique,
    pub forecast: EtcTechnique,
    pub next: Pos,
}

// The lists that the schedule and the costs need.
#[derive(Clone, Copy)]
pub struct Plan {
    pub calendars: Section,
    pub activities: Section,
    pub resources: Section,
    pub assignments: Section,
    pub expenses: Section,
}

// The lines of the baseline, if there is one.
#[derive(Clone, Copy)]
pub struct Baseline {
    pub lines: Option<Section>,
    pub next: Pos,
}

// The lists behind them.
#[derive(Clone, Copy)]
pub struct Ledger {
    pub baseline: Baseline,
    pub budgets: Section,
    pub log: Section,
    pub funds: Section,
    pub periods: Section,
    pub records: Section,
}

// Where every list of the book is, and where the book ends, or its refusal.
#[derive(Clone, Copy)]
pub struct Layout {
    pub header: Header,
    pub plan: Plan,
    pub ledger: Ledger,
    pub end: Pos,
}

// Edition, data date, technique, forecast.
fn read_header(book: &[u8], at: Pos) -> Header
    ensures { IsHeader book.now at result }
{
    let edition = field(book, at, 1, 2, Reason::OutOfRange);
    let date = optional_date(book, edition.next);
    let technique = read_technique(book, date.next);
    let forecast = field(book, technique.next, 0, 4, Reason::OutOfRange);
    Header {
        edition: edition.value,
        date: date.value,
        technique: technique.value,
        forecast: EtcTechnique::from(forecast.value),
        next: forecast.next,
    }
}

// From the calendars to the expenses.
fn read_plan(book: &[u8], at: Pos) -> Plan
    ensures { IsPlan book.now at result }
{
    let calendars = read_elements(book, at, Element::Calendar, 1, 16);
    let activities = read_activities(book, calendars.next, calendars.count);
    let resources = read_elements(book, activities.next, Element::Resource, 0, 200);
    let assignment = Element::Assignment {
        activities: activities.count,
        resources: resources.count,
    };
    let assignments = read_elements(book, resources.next, assignment, 0, 2000);
    let expense = Element::Expense {
        activities: activities.count,
    };
    let expenses = read_elements(book, assignments.next, expense, 0, 1000);
    Plan {
        calendars,
        activities,
        resources,
        assignments,
        expenses,
    }
}

// The mark, and after 1 the lines.
fn read_baseline(book: &[u8], at: Pos, activities: u64) -> Baseline
    ensures { IsBaseline book.now activities at result }
{
    let mark = field(book, at, 0, 2, Reason::OutOfRange);
    if mark.value == 1 {
        let line = Element::BaselineLine { activities };
        let lines = read_elements(book, mark.next, line, 0, 1000);
        return Baseline {
            lines: Some(lines),
            next: lines.next,
        };
    }
    Baseline {
        lines: None,
        next: mark.next,
    }
}

// From the baseline to the records of the periods, in a book with so many activities.
fn read_ledger(book: &[u8], at: Pos, activities: u64) -> Ledger
    requires { activities ≤ 500 }
    ensures { IsLedger book.now activities at result }
{
    let baseline = read_baseline(book, at, activities);
    let budgets = read_budgets(book, baseline.next, activities);
    let change = Element::BudgetChange { activities };
    let log = read_elements(book, budgets.next, change, 0, 500);
    let funds = read_amounts(book, log.next, 100);
    let periods = read_elements(book, funds.next, Element::Period, 0, 240);
    let record = Element::PeriodRecord {
        periods: periods.count,
        activities,
    };
    let records = read_elements(book, periods.next, record, 0, 2000);
    Ledger {
        baseline,
        budgets,
        log,
        funds,
        periods,
        records,
    }
}

// The first position, unless the book is too long.
fn begin(book: &[u8]) -> Pos
    ensures { result ≡ verdict.begin book.now }
{
    if 60000 < book.len() {
        return Err(Refusal {
            reason: Reason::BookTooLong,
            place: 0,
        });
    }
    Ok(0)
}

// The last position, unless bytes are left.
fn end(book: &[u8], at: Pos) -> Pos
    ensures { result ≡ verdict.end book.now at }
{
    let i = at?;
    if i < book.len() {
        return Err(Refusal {
            reason: Reason::BytesLeft,
            place: i,
        });
    }
    Ok(i)
}

// The layout of the book: at its places stands the content, and its end is the verdict.
pub fn read_layout(book: &[u8]) -> Layout
    ensures { ◌≡◌ {A = Book × Pos} (book_of book.now result, result.end) (verdict.content book.now, verdict.verdict book.now) × IsLayout book.now result }
{
    let at = begin(book);
    let header = read_header(book, at);
    let plan = read_plan(book, header.next);
    let ledger = read_ledger(book, plan.expenses.next, plan.activities.count);
    Layout {
        header,
        plan,
        ledger,
        end: end(book, ledger.records.next),
    }
}

// Whether the book is accepted, or its refusal.
pub fn judge(book: &[u8]) -> Result<(), Refusal>
    ensures { result ≡ verdict.answer_of (verdict.verdict book.now) }
{
    read_layout(book).end?;
    Ok(())
}
