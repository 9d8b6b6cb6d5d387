// The public calls. Each takes the bytes of a book, what is asked, and lent numbers for its rows; it asks nothing of its caller.
#![tactic(auto)]

ghost use Rattle.std.specs.Prelude.{[], ◌∷◌};
ghost use Rattle.answers.specs.Rows.{costs_rows, project_cost_rows, actual_by_kind_rows, spending_rows, spending_by_month_rows, twelve_months_rows, earned_value_rows, project_earned_rows, outline_rows, planned_curve_rows, performance_rows, indices_rows, project_indices_rows, period_points_rows, variances_rows, budget_rows, funding_rows};
ghost use Rattle.answers.specs.Calls.{activity_asked, date_asked, sums_asked, Answers};

use answers::Reply;
use answers::open::{open, open_at, open_between, open_for, open_on};
use budget::{budget_of, funding_of};
use costs::calls::{actual_by_kind_of, costs_of, project_cost_of};
use curve::planned_curve_of;
use periods::period_points_of;
use progress::indices::{indices_of, project_indices_of};
use progress::outline::outline_of;
use progress::performance::performance_of;
use progress::project::project_earned_of;
use progress::rolled::earned_value_of;
use spending::{spending_by_month_of, spending_of, twelve_months_of};
use variances::variances_of;

// Each activity's budget, actual and remaining cost.
pub fn costs(book: &[u8], out: &mut [u64]) -> Reply
    ensures { Answers [] costs_rows book.now out.old result out.new }
{
    let opened = open(book)?;
    costs_of(book, opened, out)
}

// The leaves' costs, added up.
pub fn project_cost(book: &[u8], out: &mut [u64]) -> Reply
    ensures { Answers [] project_cost_rows book.now out.old result out.new }
{
    let opened = open(book)?;
    project_cost_of(book, opened, out)
}

// Each activity's own actual cost by kind, and its actual units of labor and nonlabor work.
pub fn actual_by_kind(book: &[u8], out: &mut [u64]) -> Reply
    ensures { Answers [] actual_by_kind_rows book.now out.old result out.new }
{
    let opened = open(book)?;
    actual_by_kind_of(book, opened, out)
}

// What is charged to the budgets by date, between two dates, both included.
pub fn spending(book: &[u8], from: u64, to: u64, out: &mut [u64]) -> Reply
    ensures { Answers (date_asked from ∷ date_asked to ∷ []) (spending_rows from to) book.now out.old result out.new }
{
    let opened = open_between(book, from, to)?;
    spending_of(book, opened, from, to, out)
}

// The same by month, over all dates that a book may have.
pub fn spending_by_month(book: &[u8], out: &mut [u64]) -> Reply
    ensures { Answers [] spending_by_month_rows book.now out.old result out.new }
{
    let opened = open(book)?;
    spending_by_month_of(book, opened, out)
}

// The same by twelve months: for each month from the first to the last that has a point, what falls in it and in the eleven before it, exactly; the largest is marked.
pub fn twelve_months(book: &[u8], out: &mut [u64]) -> Reply
    ensures { Answers (sums_asked ∷ []) twelve_months_rows book.now out.old result out.new }
{
    let opened = open(book)?;
    twelve_months_of(book, opened, out)
}

// Each activity's figures of earned value at a status date.
pub fn earned_value(book: &[u8], date: u64, out: &mut [u64]) -> Reply
    ensures { Answers (date_asked date ∷ []) (earned_value_rows date) book.now out.old result out.new }
{
    let opened = open_at(book, date)?;
    earned_value_of(book, opened, date, out)
}

// Those of the project: the leaves', added up.
pub fn project_earned(book: &[u8], date: u64, out: &mut [u64]) -> Reply
    ensures { Answers (date_asked date ∷ []) (project_earned_rows date) book.now out.old result out.new }
{
    let opened = open_at(book, date)?;
    project_earned_of(book, opened, date, out)
}

// The lines of the outline at a status date, each with its activity's figures.
pub fn outline(book: &[u8], date: u64, out: &mut [u64]) -> Reply
    ensures { Answers (date_asked date ∷ []) (outline_rows date) book.now out.old result out.new }
{
    let opened = open_at(book, date)?;
    outline_of(book, opened, date, out)
}

// The planned value by date, between two dates, both included.
pub fn planned_curve(book: &[u8], from: u64, to: u64, out: &mut [u64]) -> Reply
    ensures { Answers (date_asked from ∷ date_asked to ∷ []) (planned_curve_rows from to) book.now out.old result out.new }
{
    let opened = open_between(book, from, to)?;
    planned_curve_of(book, opened, from, to, out)
}

// How much of an activity is done, under the book's technique.
pub fn performance(book: &[u8], activity: u64, out: &mut [u64]) -> Reply
    ensures { Answers (activity_asked activity ∷ []) (performance_rows activity) book.now out.old result out.new }
{
    let opened = open_on(book, activity)?;
    performance_of(book, opened, activity, out)
}

// An activity's estimates to complete and at completion, its variance at completion, and its three indices, at a status date, under the book's forecast.
pub fn indices(book: &[u8], activity: u64, date: u64, out: &mut [u64]) -> Reply
    ensures { Answers (activity_asked activity ∷ date_asked date ∷ []) (indices_rows activity date) book.now out.old result out.new }
{
    let opened = open_for(book, activity, date)?;
    indices_of(book, opened, activity, date, out)
}

// The same of the project.
pub fn project_indices(book: &[u8], date: u64, out: &mut [u64]) -> Reply
    ensures { Answers (date_asked date ∷ []) (project_indices_rows date) book.now out.old result out.new }
{
    let opened = open_at(book, date)?;
    project_indices_of(book, opened, date, out)
}

// Each financial period's planned value and, once records of it are stored, its earned value and actual cost to date.
pub fn period_points(book: &[u8], out: &mut [u64]) -> Reply
    ensures { Answers [] period_points_rows book.now out.old result out.new }
{
    let opened = open(book)?;
    period_points_of(book, opened, out)
}

// Each activity's variances from the last line of the baseline that names it.
pub fn variances(book: &[u8], out: &mut [u64]) -> Reply
    ensures { Answers [] variances_rows book.now out.old result out.new }
{
    let opened = open(book)?;
    variances_of(book, opened, out)
}

// The lines of the budget: the project's, then those of the activities that have one.
pub fn budget(book: &[u8], out: &mut [u64]) -> Reply
    ensures { Answers [] budget_rows book.now out.old result out.new }
{
    let opened = open(book)?;
    budget_of(book, opened, out)
}

// What is funded, and what of the budget is not covered.
pub fn funding(book: &[u8], out: &mut [u64]) -> Reply
    ensures { Answers [] funding_rows book.now out.old result out.new }
{
    let opened = open(book)?;
    funding_of(book, opened, out)
}
