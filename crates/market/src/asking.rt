// What every fleet asks before it answers: whether it has the row, whether every list has a cell for each period, and whether every price is
// within its limits. Row, size and periods are three numbers and no struct: each call is the first line of a fleet's answer, and a struct would be
// built there only to be taken apart.
ghost use Rattle.std.specs.Prelude.{◌≡◌, ◌||◌, None, nat_lt};
ghost use Rattle.std.specs.List.{position};
ghost use Rattle.std.specs.Ordering.{partial_lt, partial_gt};
ghost use Rattle.market.specs.Fleet.{asked, unless, fault_at, row_fault, schedule_of, row_prices_of, schedule_listed, prices_listed, prices_asked};

use crate::broken::Broken;
use crate::price_set::MOST_PRICE;
use crate::row_prices::RowPrices;
use crate::scan::first_outside;
use crate::schedule::Schedule;

// No such row, or a list that has not a cell for each period.
const LENGTHS: Broken = Broken { rule: 8, period: 0 };

// The number of the question on prices.
const LIMITS: u8 = 19;

// The limit of a net price to either side of zero, in grains per tenth and period.
const MOST_NET: i64 = 17_000_000_000;

// 8 unless the row is below the size.
pub fn row_asked(row: usize, size: usize) -> Result<(), Broken>
    ensures { result ≡ asked (nat_lt row size) }
{
    if row < size { Ok(()) } else { Err(LENGTHS) }
}

// 8 unless the row is below the size and has a mark and an output for each period.
pub fn schedule_asked(
    row: usize,
    size: usize,
    periods: usize,
    schedule: &Schedule,
) -> Result<(), Broken>
    ensures { result ≡ asked (schedule_listed row size periods (schedule_of schedule.now)) }
{
    row_asked(row, size)?;
    if schedule.marks.len() == periods && schedule.outputs.len() == periods {
        Ok(())
    } else {
        Err(LENGTHS)
    }
}

// The same of any three lists. Thin over a private function, so that an edit that must fail is refused for the fact and not for its answers' file.
pub fn within_limits(prices: &RowPrices) -> Result<(), Broken>
    ensures { result ≡ unless (row_fault (row_prices_of prices.now)) tt }
{
    limits_kept(prices)
}

// 8 unless the row is below the size and has prices for each period.
fn listed(row: usize, size: usize, periods: usize, prices: &RowPrices) -> Result<(), Broken>
    ensures { result ≡ asked (prices_listed row size periods (row_prices_of prices.now)) }
{
    row_asked(row, size)?;
    if prices.net.len() == periods && prices.rise.len() == periods && prices.fall.len() == periods {
        Ok(())
    } else {
        Err(LENGTHS)
    }
}

// 19 with the first period of a price outside these limits.
fn within<T: Copy + PartialOrd>(prices: &[T], low: T, high: T) -> Result<(), Broken>
    ensures { result ≡ unless (fault_at (position (λ x. partial_lt T.partial_cmp x low || partial_gt T.partial_cmp x high) prices.now) None) tt }
{
    match first_outside(prices, low, high) {
        Some(period) => Err(Broken {
            rule: LIMITS,
            period: period + 1,
        }),
        None => Ok(()),
    }
}

// 19 with the first period of a price outside its limits: net prices, then prices of rises, then of falls.
fn limits_kept(prices: &RowPrices) -> Result<(), Broken>
    ensures { result ≡ unless (row_fault (row_prices_of prices.now)) tt }
{
    within(prices.net, -MOST_NET, MOST_NET)?;
    within(prices.rise, 0, MOST_PRICE)?;
    within(prices.fall, 0, MOST_PRICE)
}

// 8 unless the row is below the size and has prices for each period; then 19 with the period of the first that is outside its limits.
pub fn prices_asked(
    row: usize,
    size: usize,
    periods: usize,
    prices: &RowPrices,
) -> Result<(), Broken>
    ensures { result ≡ prices_asked row size periods (row_prices_of prices.now) }
{
    listed(row, size, periods, prices)?;
    within_limits(prices)
}
