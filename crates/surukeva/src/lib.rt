// The C interface: include/surukeva.h declares it.
#![tactic(auto)]

ghost use Rattle.std.specs.Prelude.{[], ◌∷◌, ◌≡◌};
ghost use Rattle.format.specs.Verdict.{verdict, answer_of, answer_number, answer_place};
ghost use Rattle.answers.specs.Rows.{costs_rows, project_cost_rows, actual_by_kind_rows, spending_rows, spending_by_month_rows, twelve_months_rows, earned_value_rows, project_earned_rows, outline_rows, planned_curve_rows, performance_rows, indices_rows, project_indices_rows, period_points_rows, variances_rows, budget_rows, funding_rows};
ghost use Rattle.answers.specs.Calls.{activity_asked, date_asked, sums_asked, Returns};

use answers::{give, give_refusal};

// Whether the book is accepted: its number, and in `at` its place.
#[unsafe(no_mangle)]
pub extern "C" fn surukeva_verdict(book: &[u8], at: &mut u64) -> u64
    ensures { (result ≡ answer_number (answer_of (verdict book.now))) × (at.new ≡ answer_place (answer_of (verdict book.now))) }
{
    let answer = book::layout::judge(book);
    match answer {
        Ok(()) => {
            *at = 0;
            0
        }
        Err(refusal) => give_refusal(u64::from(refusal.reason), refusal.place, at),
    }
}

// Each activity's costs.
#[unsafe(no_mangle)]
pub extern "C" fn surukeva_costs(book: &[u8], out: &mut [u64], at: &mut u64) -> u64
    ensures { Returns [] costs_rows book.now out.old result at.new out.new }
{
    let answer = engine::costs(book, out);
    give(answer, at)
}

// The project's costs.
#[unsafe(no_mangle)]
pub extern "C" fn surukeva_project_cost(book: &[u8], out: &mut [u64], at: &mut u64) -> u64
    ensures { Returns [] project_cost_rows book.now out.old result at.new out.new }
{
    let answer = engine::project_cost(book, out);
    give(answer, at)
}

// Each activity's own actual cost by kind.
#[unsafe(no_mangle)]
pub extern "C" fn surukeva_actual_by_kind(book: &[u8], out: &mut [u64], at: &mut u64) -> u64
    ensures { Returns [] actual_by_kind_rows book.now out.old result at.new out.new }
{
    let answer = engine::actual_by_kind(book, out);
    give(answer, at)
}

// The spending between two dates.
#[unsafe(no_mangle)]
pub extern "C" fn surukeva_spending(
    book: &[u8],
    from: u64,
    to: u64,
    out: &mut [u64],
    at: &mut u64,
) -> u64
    ensures { Returns (date_asked from ∷ date_asked to ∷ []) (spending_rows from to) book.now out.old result at.new out.new }
{
    let answer = engine::spending(book, from, to, out);
    give(answer, at)
}

// The spending by month.
#[unsafe(no_mangle)]
pub extern "C" fn surukeva_spending_by_month(book: &[u8], out: &mut [u64], at: &mut u64) -> u64
    ensures { Returns [] spending_by_month_rows book.now out.old result at.new out.new }
{
    let answer = engine::spending_by_month(book, out);
    give(answer, at)
}

// The spending by twelve months.
#[unsafe(no_mangle)]
pub extern "C" fn surukeva_twelve_months(book: &[u8], out: &mut [u64], at: &mut u64) -> u64
    ensures { Returns (sums_asked ∷ []) twelve_months_rows book.now out.old result at.new out.new }
{
    let answer = engine::twelve_months(book, out);
    give(answer, at)
}

// Each activity's earned value.
#[unsafe(no_mangle)]
pub extern "C" fn surukeva_earned_value(
    book: &[u8],
    date: u64,
    out: &mut [u64],
    at: &mut u64,
) -> u64
    ensures { Returns (date_asked date ∷ []) (earned_value_rows date) book.now out.old result at.new out.new }
{
    let answer = engine::earned_value(book, date, out);
    give(answer, at)
}

// The project's earned value.
#[unsafe(no_mangle)]
pub extern "C" fn surukeva_project_earned(
    book: &[u8],
    date: u64,
    out: &mut [u64],
    at: &mut u64,
) -> u64
    ensures { Returns (date_asked date ∷ []) (project_earned_rows date) book.now out.old result at.new out.new }
{
    let answer = engine::project_earned(book, date, out);
    give(answer, at)
}

// The outline, with each activity's earned value.
#[unsafe(no_mangle)]
pub extern "C" fn surukeva_outline(book: &[u8], date: u64, out: &mut [u64], at: &mut u64) -> u64
    ensures { Returns (date_asked date ∷ []) (outline_rows date) book.now out.old result at.new out.new }
{
    let answer = engine::outline(book, date, out);
    give(answer, at)
}

// The planned curve between two dates.
#[unsafe(no_mangle)]
pub extern "C" fn surukeva_planned_curve(
    book: &[u8],
    from: u64,
    to: u64,
    out: &mut [u64],
    at: &mut u64,
) -> u64
    ensures { Returns (date_asked from ∷ date_asked to ∷ []) (planned_curve_rows from to) book.now out.old result at.new out.new }
{
    let answer = engine::planned_curve(book, from, to, out);
    give(answer, at)
}

// How much of an activity is done.
#[unsafe(no_mangle)]
pub extern "C" fn surukeva_performance(
    book: &[u8],
    activity: u64,
    out: &mut [u64],
    at: &mut u64,
) -> u64
    ensures { Returns (activity_asked activity ∷ []) (performance_rows activity) book.now out.old result at.new out.new }
{
    let answer = engine::performance(book, activity, out);
    give(answer, at)
}

// An activity's forecast and indices.
#[unsafe(no_mangle)]
pub extern "C" fn surukeva_indices(
    book: &[u8],
    activity: u64,
    date: u64,
    out: &mut [u64],
    at: &mut u64,
) -> u64
    ensures { Returns (activity_asked activity ∷ date_asked date ∷ []) (indices_rows activity date) book.now out.old result at.new out.new }
{
    let answer = engine::indices(book, activity, date, out);
    give(answer, at)
}

// The project's forecast and indices.
#[unsafe(no_mangle)]
pub extern "C" fn surukeva_project_indices(
    book: &[u8],
    date: u64,
    out: &mut [u64],
    at: &mut u64,
) -> u64
    ensures { Returns (date_asked date ∷ []) (project_indices_rows date) book.now out.old result at.new out.new }
{
    let answer = engine::project_indices(book, date, out);
    give(answer, at)
}

// The financial periods.
#[unsafe(no_mangle)]
pub extern "C" fn surukeva_period_points(book: &[u8], out: &mut [u64], at: &mut u64) -> u64
    ensures { Returns [] period_points_rows book.now out.old result at.new out.new }
{
    let answer = engine::period_points(book, out);
    give(answer, at)
}

// Each activity's variances from the baseline.
#[unsafe(no_mangle)]
pub extern "C" fn surukeva_variances(book: &[u8], out: &mut [u64], at: &mut u64) -> u64
    ensures { Returns [] variances_rows book.now out.old result at.new out.new }
{
    let answer = engine::variances(book, out);
    give(answer, at)
}

// The lines of the budget.
#[unsafe(no_mangle)]
pub extern "C" fn surukeva_budget(book: &[u8], out: &mut [u64], at: &mut u64) -> u64
    ensures { Returns [] budget_rows book.now out.old result at.new out.new }
{
    let answer = engine::budget(book, out);
    give(answer, at)
}

// The funding.
#[unsafe(no_mangle)]
pub extern "C" fn surukeva_funding(book: &[u8], out: &mut [u64], at: &mut u64) -> u64
    ensures { Returns [] funding_rows book.now out.old result at.new out.new }
{
    let answer = engine::funding(book, out);
    give(answer, at)
}
