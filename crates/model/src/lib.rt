// Types that the definitions of a book's figures share with the code that computes them.
#![tactic(auto)]

// The three ways in which an activity's days, units and amounts are counted.
#[derive(Clone, Copy)]
pub enum Way {
    Planned,
    Actual,
    Remaining,
}

// An activity's actual cost by kind of cost, and its actual units of labor and nonlabor work, in hundredths.
#[derive(Clone, Copy)]
pub struct ActualByKind {
    pub labor: i64,
    pub nonlabor: i64,
    pub material: i64,
    pub expense: i64,
    pub labor_units: i64,
    pub nonlabor_units: i64,
}

// An activity's, or the project's, earned value, in hundredths of the currency.
#[derive(Clone, Copy)]
pub struct Earned {
    pub budget: i64,
    pub planned: i64,
    pub earned: i64,
    pub actual: i64,
    pub remaining: i64,
}

// The three indices of a row of earned value, each with a flag that says whether there is one.
#[derive(Clone, Copy)]
pub struct Indices {
    pub cpi: f64,
    pub has_cpi: bool,
    pub spi: f64,
    pub has_spi: bool,
    pub tcpi: f64,
    pub has_tcpi: bool,
}

// What document 02's walk over the days of a span counts: its listed days, those of them up to a date, and the dates that it tested.
#[derive(Clone, Copy)]
pub struct DayWalk {
    pub listed: u64,
    pub up_to: u64,
    pub tested: u64,
}
