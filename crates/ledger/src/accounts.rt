// The table of accounts: six figures for each, an activity at its index, the project at 500, behind all of them.
ghost use Rattle.std.specs.Prelude.{◌≡◌, ◌+◌, ◌*◌, ◌<◌};
ghost use Rattle.sections.specs.Sections.{mark_of};
ghost use Rattle.tree.specs.Figures.{add_at};
ghost use Rattle.ledger.specs.Accounts.{account_figure, current_in};

use money::sums::saturating_add;
use sections::budgets::mark_of;

// The figures of an account: what was first approved, the plan added up, the changes by status, what is distributed.
pub const ORIGINAL: usize = 0;

pub const PLANNED: usize = 1;

pub const PENDING: usize = 2;

pub const APPROVED: usize = 3;

pub const NOT_APPROVED: usize = 4;

pub const DISTRIBUTED: usize = 5;

// The number of an account's row.
pub fn account_number(account: Option<u64>) -> usize
    ensures { (result ≡ mark_of account) × (result < 501) }
{
    mark_of(account)
}

// Figure j of account k.
pub fn figure(accounts: &[i64; 3006], k: usize, j: usize) -> i64
    requires { (k < 501) × (j < 6) }
    ensures { result ≡ account_figure accounts.now k j }
{
    accounts[k * 6 + j]
}

// The amount is added to it.
pub fn add_figure(k: usize, j: usize, amount: i64, accounts: &mut [i64; 3006])
    requires { (k < 501) × (j < 6) }
    ensures { accounts.new ≡ add_at amount accounts.old (k * 6 + j) }
{
    let at = k * 6 + j;
    let old = accounts[at];
    accounts[at] = saturating_add(old, amount);
}

// The current budget of account k.
pub fn current(accounts: &[i64; 3006], k: usize) -> i64
    requires { k < 501 }
    ensures { result ≡ current_in accounts.now k }
{
    let original = figure(accounts, k, ORIGINAL);
    let approved = figure(accounts, k, APPROVED);
    saturating_add(original, approved)
}
