// Rows that run in every period, and the verdict on a schedule of one.
ghost use Rattle.std.specs.Prelude.{◌≡◌, ℕ, ◌<◌, ◌≤◌, Bool, length, ℤ, slice_index};
ghost use Rattle.market.specs.Scans.{Within, at};
ghost use Rattle.kinds.specs.Rules.{broken_by, running_rule};
ghost use Rattle.kinds.specs.Verdicts.{Judged};

use kinds::{RUNNING, Rule};
use market::{Broken, Schedule};
use measures::{Grains, Tenths};

// A row that runs in every period: which outputs it may have, and what they cost. Periods count from 0 here.
pub(crate) trait AlwaysRuns {
    ghost periods: { Self → ℕ };

    ghost allows: { Self → ℕ → ℤ → Bool };

    ghost cost: { Self → ℤ → ℤ };

    // Whether the row may have the output in a period. A period goes by its number: what a row has for each differs from kind to kind.
    fn allows(&self, period: usize, output: Tenths) -> bool
        requires { period < periods self.now }
        ensures { result ≡ allows self.now period output.0 };

    // What the output costs in a period.
    fn cost(&self, output: Tenths) -> Grains
        ensures { result.0 ≡ cost self.now output.0 };

    ghost few: { (row : Self) → periods row ≤ 96 };

    ghost small: { (row : Self) (output : ℤ) → Within 4000000000000 (cost row output) };
}

// The first rule that a mark and an output break in a period, if any.
fn rule<R: AlwaysRuns>(row: &R, period: usize, mark: u8, output: Tenths) -> Result<(), Rule>
    requires { period < R.periods row.now }
    ensures { broken_by result ≡ running_rule mark (R.allows row.now period output.0) }
{
    if mark != RUNNING {
        return Err(Rule::Mark);
    }
    if !row.allows(period, output) {
        return Err(Rule::Output);
    }
    Ok(())
}

// The verdict on a row's schedule, period by period: a lawful one costs what its outputs cost. The schedule's two lengths are asked for here and
// by each table's own verdict: a struct that knew them would have to hold the table and the row as well, so one for each kind, and no plainer.
pub(crate) fn judged<R: AlwaysRuns>(row: &R, schedule: &Schedule) -> Result<Grains, Broken>
    requires marks { length schedule.now.marks.now ≡ R.periods row.now }
    requires outputs { length schedule.now.outputs.now ≡ R.periods row.now }
    ensures { Judged (λ t. running_rule (slice_index schedule.now.marks.now t) (R.allows row.now t (at schedule.now.outputs.now t))) (λ t. R.cost row.now (at schedule.now.outputs.now t)) (R.periods row.now) result }
{
    let mut cost = Grains(0);
    for (period, (mark, output)) in schedule.marks.iter().zip(schedule.outputs).enumerate() {
        let output = Tenths(*output);
        rule(row, period, *mark, output).map_err(|rule| rule.in_period(period + 1))?;
        cost = cost + row.cost(output);
    }
    Ok(cost)
}
