// Whether a plan or a price set has a cell for each of its items and periods.
ghost use Rattle.std.specs.Prelude.{◌≡◌, ◌*◌};
ghost use Rattle.market.specs.Bounding.{prices_of};
ghost use Rattle.market.specs.Clearing.{Sized};
ghost use Rattle.market.specs.Days.{numbers_of};
ghost use Rattle.market.specs.Meanings.{meaning};
ghost use Rattle.market.specs.Judging.{PlanSized, plan_of};
ghost use Rattle.market.specs.Lengths.{LengthsTold};

use crate::day::Day;
use crate::fleet::Fleet;
use crate::plan::Plan;
use crate::price_set::PriceSet;
use crate::refusal::Refusal;

// A cell for each row and period.
fn row_cells<F: Fleet>(day: &Day, fleet: &F) -> usize
    ensures { result ≡ F.size fleet.now * day.now.numbers.periods }
{
    fleet.size() * day.numbers.periods
}

// A cell for each line and period.
fn line_cells(day: &Day) -> usize
    ensures { result ≡ day.now.numbers.lines * day.now.numbers.periods }
{
    day.numbers.lines * day.numbers.periods
}

// 8 unless the plan has a mark and an output for each row and period.
pub fn plan_lengths<F: Fleet>(day: &Day, fleet: &F, plan: &Plan) -> Result<(), Refusal>
    ensures { LengthsTold (PlanSized (numbers_of day.now.numbers) (meaning F.Fleet fleet.now) (plan_of plan.now)) result }
{
    let cells = row_cells(day, fleet);
    if plan.marks.len() != cells || plan.outputs.len() != cells {
        return Err(Refusal::Lengths);
    }
    Ok(())
}

// 8 unless the price set has a price for each of its items and periods.
pub fn price_lengths<F: Fleet>(day: &Day, fleet: &F, prices: &PriceSet) -> Result<(), Refusal>
    ensures { LengthsTold (Sized (numbers_of day.now.numbers) (meaning F.Fleet fleet.now) (prices_of prices.now)) result }
{
    let rows = row_cells(day, fleet);
    let lines = line_cells(day);
    if prices.system.len() != day.numbers.periods
        || prices.upper.len() != lines
        || prices.lower.len() != lines
    {
        return Err(Refusal::Lengths);
    }
    if prices.rise.len() != rows || prices.fall.len() != rows {
        return Err(Refusal::Lengths);
    }
    Ok(())
}
