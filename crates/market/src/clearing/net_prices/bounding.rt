// A price set bounded: its questions in order, and its floor.
ghost use Rattle.std.specs.Prelude.{◌≡◌, ◌<◌, ◌≤◌, Ok, Err, MatchResult};
ghost use Rattle.market.specs.Bounding.{prices_of, OverTold, RangesTold, Ready, Told, Netted, RowsFloored};
ghost use Rattle.market.specs.Clearing.{row_prices};
ghost use Rattle.market.specs.Days.{numbers_of};
ghost use Rattle.market.specs.Fleet.{row_prices_of};
ghost use Rattle.market.specs.Meanings.{meaning};

use crate::clearing::net_prices::LinePrices;
use crate::day::Day;
use crate::fleet::Fleet;
use crate::lengths::price_lengths;
use crate::placing::place;
use crate::price_set::{MOST_PRICE, PriceSet};
use crate::refusal::Refusal;
use crate::row_prices::RowPrices;
use crate::scan::outside;
use measures::Grains;

// A price set that has its lengths and is in range, for a fleet that fits the day. The same struct for judging a plan stands beside it:
// one over both would hold its fact by a parameter, and is no plainer.
struct Offer<'a, F: Fleet> {
    day: &'a Day<'a>,
    fleet: &'a F,
    prices: &'a PriceSet<'a>,
    ghost ready: { Ready (numbers_of day.now.numbers) (meaning F.Fleet fleet.now) (prices_of prices.now) },
}

// Nothing is to be given back, whatever the fleet.
impl<F: Fleet> Drop for Offer<'_, F> {
    fn drop(self) {
        let Offer {
            day: _,
            fleet: _,
            prices: _,
        } = self;
    }
}

// The first price of a limit, a rise or a fall that is out of its limits.
fn limited(table: &[i32], count: usize) -> Result<(), Refusal>
    requires { 1 ≤ count }
    ensures { OverTold count table.now result }
{
    match outside(table, 0, MOST_PRICE) {
        Some(cell) => Err(Refusal::Price {
            place: cell / count,
            period: cell % count + 1,
        }),
        None => Ok(()),
    }
}

// The first price that is out of its limits: system prices, then those of upper and of lower limits, of rises and of falls.
fn in_range(prices: &PriceSet, count: usize) -> Result<(), Refusal>
    requires { 1 ≤ count }
    ensures { RangesTold count (prices_of prices.now) result }
{
    if let Some(period) = outside(prices.system, -MOST_PRICE, MOST_PRICE) {
        return Err(Refusal::Price {
            place: 0,
            period: period + 1,
        });
    }
    limited(prices.upper, count)?;
    limited(prices.lower, count)?;
    limited(prices.rise, count)?;
    limited(prices.fall, count)
}

impl<F: Fleet> Offer<'_, F> {
    // The rows' floors. A fleet is asked by a row's number, and its part of each table is cut by it.
    fn rows_floor(&self, nets: &[i64]) -> Grains
        requires { Netted (numbers_of self.now.day.now.numbers) (prices_of self.now.prices.now) nets.now }
        ensures { RowsFloored (numbers_of self.now.day.now.numbers) (meaning F.Fleet self.now.fleet.now) (prices_of self.now.prices.now) (F.size self.now.fleet.now) result.0 }
    {
        let periods = self.day.numbers.periods;
        let mut floor = Grains(0);
        for row in 0..self.fleet.size() {
            let Ok(node) = self.fleet.node(row) else {
                unreachable!()
            };
            let here = node * periods;
            let start = row * periods;
            let prices = RowPrices {
                net: &nets[here..here + periods],
                rise: &self.prices.rise[start..start + periods],
                fall: &self.prices.fall[start..start + periods],
            };
            let Ok(more) = self.fleet.floor(row, &prices) else {
                unreachable!()
            };
            floor = floor + more;
        }
        floor
    }

    fn floor(&self) -> Grains
        ensures { Told (numbers_of self.now.day.now.numbers) (meaning F.Fleet self.now.fleet.now) (prices_of self.now.prices.now) (Ok result) }
    {
        let lines = LinePrices {
            day: self.day,
            prices: self.prices,
        };
        let nets = lines.nets();
        self.rows_floor(&nets.cells) + nets.periods_floor()
    }
}

// The price set as one that can be bounded, or the first no: the fleet does not fit the day, or a list has not its length, or a price is out of
// its limits. What is handed in goes along as it comes: together, and asked, they are the offer.
fn offered<'a, F: Fleet>(
    day: &'a Day<'a>,
    fleet: &'a F,
    prices: &'a PriceSet<'a>,
) -> Result<Offer<'a, F>, Refusal>
    ensures { MatchResult result (λ offer. (offer.day.now ≡ day.now) × (offer.fleet.now ≡ fleet.now) × (offer.prices.now ≡ prices.now)) (λ e. Told (numbers_of day.now.numbers) (meaning F.Fleet fleet.now) (prices_of prices.now) (Err e)) }
{
    place(day, fleet)?;
    price_lengths(day, fleet, prices)?;
    in_range(prices, day.numbers.periods)?;
    Ok(Offer { day, fleet, prices })
}

// The floor that a price set gives, if it is in range; else the first no.
pub fn bound<F: Fleet>(day: &Day, fleet: &F, prices: &PriceSet) -> Result<Grains, Refusal>
    ensures { Told (numbers_of day.now.numbers) (meaning F.Fleet fleet.now) (prices_of prices.now) result }
{
    Ok(offered(day, fleet, prices)?.floor())
}
