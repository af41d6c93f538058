// Net prices: what a tenth of a megawatt fed in at a node is worth in a period. Periods count from 0 here.
// A period stays a number below the day's: a struct for it would hold the day beside one number.
// The walks go by number: tables with different steps would be zipped, which is no plainer.
mod bounding;

ghost use Rattle.std.specs.Prelude.{◌≡◌, ◌<◌, ◌*ℤ◌, FitsSigned, length, slice_index_or};
ghost use Rattle.std.specs.Int.{w64};
ghost use Rattle.market.specs.Bounding.{prices_of, LinesPriced, Netted, limits_come, loads_pay, PeriodsFloored};
ghost use Rattle.market.specs.Clearing.{net_price};
ghost use Rattle.market.specs.Days.{numbers_of};

use crate::day::Day;
use crate::numbers::{MOST_NODES, MOST_PERIODS};
use crate::price_set::PriceSet;
pub use bounding::bound;
use measures::{Factor, Fen, Grains, NetPrice, Tenths};

// One cell of a table, in its measure.
fn measured<T: Copy, M: From<T>>(table: &[T], cell: usize) -> M
    requires { cell < length table.now }
    ensures { (d : T) → M.from_gives (slice_index_or table.now cell d) result }
{
    M::from(table[cell])
}

// System prices and prices of lines' limits, which have their cells on the day and are within their limits.
#[derive(Clone, Copy)]
struct LinePrices<'a> {
    day: &'a Day<'a>,
    prices: &'a PriceSet<'a>,
    ghost priced: { LinesPriced (numbers_of day.now.numbers) (prices_of prices.now) },
}

// A cell for each node and period: an array, since bounding may not run out of memory.
const MOST_CELLS: usize = MOST_NODES * MOST_PERIODS;

// The net prices that they make, node by node and then by period.
#[derive(Drop)]
struct Nets<'a> {
    lines: LinePrices<'a>,
    cells: [i64; MOST_CELLS],
    ghost netted: { Netted (numbers_of lines.day.now.numbers) (prices_of lines.prices.now) cells },
}

// What a line's price takes of a node's, whose share flows over the line. A function of its own, so that an edit that must fail is refused for the fact.
fn taken(price: Fen, share: Factor) -> NetPrice
    requires { FitsSigned w64 (price.0 *ℤ share.0) }
    ensures { result.0 ≡ price.0 *ℤ share.0 }
{
    price * share
}

impl<'a> LinePrices<'a> {
    // The system price, less what the lines' prices take of it at the node.
    fn net_price(&self, node: usize, period: usize) -> NetPrice
        requires { (node < self.now.day.now.numbers.nodes) × (period < self.now.day.now.numbers.periods) }
        ensures { result.0 ≡ net_price (numbers_of self.now.day.now.numbers) (prices_of self.now.prices.now) node period }
    {
        let day = self.day.numbers;
        let system: Fen = measured(self.prices.system, period);
        let mut net = system.net();
        for line in 0..day.lines {
            let cell = line * day.periods + period;
            let upper: Fen = measured(self.prices.upper, cell);
            let lower: Fen = measured(self.prices.lower, cell);
            let share: Factor = measured(day.factors, line * day.nodes + node);
            net = net - taken(upper - lower, share);
        }
        net
    }

    // By number, since node and period are worked out of the cell's place; `iter_mut` over the part that is used was tried, and not proved.
    fn nets(self) -> Nets<'a>
        ensures { result.lines ≡ self.entry }
    {
        let periods = self.day.numbers.periods;
        let mut cells = [0i64; MOST_CELLS];
        for cell in 0..self.day.numbers.nodes * periods {
            cells[cell] = self.net_price(cell / periods, cell % periods).0;
        }
        Nets { lines: self, cells }
    }

    // What the limits of all lines come to in a period, each at its price.
    fn limits_come(&self, period: usize) -> Grains
        requires { period < self.now.day.now.numbers.periods }
        ensures { result.0 ≡ limits_come (numbers_of self.now.day.now.numbers) (prices_of self.now.prices.now) period }
    {
        let day = self.day.numbers;
        let mut all = Grains(0);
        for line in 0..day.lines {
            let cell = line * day.periods + period;
            let upper = measured::<_, Fen>(self.prices.upper, cell).net()
                * measured(day.upper, line);
            let lower = measured::<_, Fen>(self.prices.lower, cell).net()
                * measured(day.lower, line);
            all = all + (upper - lower);
        }
        all
    }
}

impl Nets<'_> {
    // What the loads of a period pay, each at its node's net price.
    fn loads_pay(&self, period: usize) -> Grains
        requires { period < self.now.lines.day.now.numbers.periods }
        ensures { result.0 ≡ loads_pay (numbers_of self.now.lines.day.now.numbers) (prices_of self.now.lines.prices.now) period }
    {
        let day = self.lines.day.numbers;
        let mut paid = Grains(0);
        for node in 0..day.nodes {
            let cell = node * day.periods + period;
            let net: NetPrice = measured(&self.cells, cell);
            let load: Tenths = measured(day.loads, cell);
            paid = paid + net * load;
        }
        paid
    }

    // What all periods add to the floor.
    fn periods_floor(&self) -> Grains
        ensures { PeriodsFloored (numbers_of self.now.lines.day.now.numbers) (prices_of self.now.lines.prices.now) self.now.lines.day.now.numbers.periods result.0 }
    {
        let mut all = Grains(0);
        for period in 0..self.lines.day.numbers.periods {
            all = all + (self.loads_pay(period) - self.lines.limits_come(period));
        }
        all
    }
}
