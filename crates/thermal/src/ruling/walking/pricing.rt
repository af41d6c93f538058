// A thermal unit's floor: the least weight of all mark sequences that keep the time rules, by a walk back over the periods.
mod answering;

ghost use Rattle.std.specs.Prelude.{◌≡◌, ℕ, ◌+◌, ◌^◌, ◌<◌, ◌≤◌, map, min, length, replicate, pos, ◌-ℤ◌, ◌+ℤ◌, ◌*ℤ◌};
ghost use Rattle.market.specs.Fleet.{row_prices_of};
ghost use Rattle.market.specs.Scans.{Within, UpTo, at};
ghost use Rattle.kinds.specs.Curves.{lowest, highest, net_cost};
ghost use Rattle.kinds.specs.Leasts.{least_over};
ghost use Rattle.kinds.specs.Thermal.{UnitMade, rise_allowance, fall_allowance, value, running_weight, weight_in, floor};
ghost use Rattle.kinds.specs.Walks.{PricesFit, Walked, AheadWithin, from_before};
ghost use Rattle.thermal.specs.Marks.{code_of};
ghost use Rattle.thermal.specs.Ahead.{amounts, nothing, ahead_of};

use crate::mark::Mark;
use crate::ruling::walking::{Ahead, PeriodWeights};
use crate::ruling::{State, Unit};
use kinds::MOST_PERIODS;
use market::RowPrices;
use measures::{Fen, Grains, NetPrice, Yuan};

// A cell for each period of the longest day, and one after the last: an array, since a floor takes no memory from the heap.
const CELLS: usize = MOST_PERIODS + 1;

// Before the first step of the walk back.
fn ended() -> [Ahead; CELLS]
    ensures long { length result ≡ 97 }
    ensures nothing { map amounts result ≡ replicate 97 nothing }
{
    [Ahead::NOTHING; CELLS]
}

// The price in the period after, 0 after the last.
fn next(prices: &[i32], period: usize) -> Fen
    requires { period < length prices.now }
    ensures { result.0 ≡ at prices.now (period + 1) }
{
    Fen(prices.get(period + 1).copied().unwrap_or(0))
}

// The price in a period less that in the period after.
fn lead(prices: &[i32], period: usize) -> Fen
    requires place { period < length prices.now }
    requires prices { (UpTo 1000000 (at prices.now period)) × (UpTo 1000000 (at prices.now (period + 1))) }
    ensures told { result.0 ≡ at prices.now period -ℤ at prices.now (period + 1) }
    ensures small { Within 1000000 result.0 }
{
    Fen(prices[period]) - next(prices, period)
}

// A unit at prices within their limits, in each period of a day.
#[derive(Clone, Copy)]
struct Priced<'a> {
    pub unit: Unit<'a>,
    pub prices: RowPrices<'a>,
    ghost day: { (1 ≤ length prices.net.now) × (length prices.net.now ≤ 96) },
    ghost rises: { length prices.rise.now ≡ length prices.net.now },
    ghost falls: { length prices.fall.now ≡ length prices.net.now },
    ghost fit: { PricesFit (row_prices_of prices) },
}

// The same in one of the periods.
#[derive(Clone, Copy)]
struct PricedPeriod<'a> {
    pub day: Priced<'a>,
    pub period: usize,
    ghost within: { period < length day.prices.net.now },
}

impl PricedPeriod<'_> {
    // The period from which a mark that must last so long from this one on may change again, or the end of the day.
    fn free_from(&self, time: usize) -> usize
        requires { self.now.period + time < 2 ^ 64 }
        ensures { result ≡ min (self.now.period + time) (length self.now.day.prices.net.now) }
    {
        (self.period + time).min(self.day.periods())
    }

    fn rise(&self) -> Fen
        ensures { result.0 ≡ at self.now.day.prices.rise.now self.now.period }
    {
        Fen(self.day.prices.rise[self.period])
    }

    fn fall(&self) -> Fen
        ensures { result.0 ≡ at self.now.day.prices.fall.now self.now.period }
    {
        Fen(self.day.prices.fall[self.period])
    }

    // What a tenth of a megawatt is worth: its net price, with the prices of the rise and fall into the period and out of it.
    fn value(&self) -> NetPrice
        ensures { result.0 ≡ value (row_prices_of self.now.day.prices) self.now.period }
    {
        let RowPrices { net, rise, fall } = self.day.prices;
        NetPrice(net[self.period]) - (lead(rise, self.period) - lead(fall, self.period)).net()
    }

    // The least of running cost less worth over the whole curve.
    fn least(&self) -> Grains
        ensures { result.0 ≡ least_over (lowest self.now.day.unit.record.now.curve) (highest self.now.day.unit.record.now.curve) (net_cost self.now.day.unit.record.now.curve (value (row_prices_of self.now.day.prices) self.now.period)) }
    {
        let curve = self.day.unit.curve();
        curve
            .least(self.value(), curve.lowest(), curve.highest())
            .unwrap()
    }

    // That least, with the no_load cost.
    fn running_weight(&self) -> Grains
        ensures { result.0 ≡ running_weight self.now.day.unit.record.now (row_prices_of self.now.day.prices) self.now.period }
    {
        self.least() + Yuan(self.day.unit.record.no_load).grains()
    }

    // What the allowances take off at the prices of rises and falls.
    fn allowed(&self, before: Mark, mark: Mark) -> Grains
        ensures told { result.0 ≡ pos 1000 *ℤ (at self.now.day.prices.rise.now self.now.period *ℤ rise_allowance self.now.day.unit.record.now (code_of before) (code_of mark) +ℤ at self.now.day.prices.fall.now self.now.period *ℤ fall_allowance self.now.day.unit.record.now (code_of before) (code_of mark)) }
        ensures small { Within 40000000000000 result.0 }
    {
        self.rise().net() * self.day.unit.rise_allowance(before, mark)
            + self.fall().net() * self.day.unit.fall_allowance(before, mark)
    }

    // What a period weighs, where a running one weighs so much before its start and its allowances.
    fn weight(&self, runs: Grains, before: Mark, mark: Mark) -> Grains
        requires { runs.0 ≡ running_weight self.now.day.unit.record.now (row_prices_of self.now.day.prices) self.now.period }
        ensures { result.0 ≡ weight_in self.now.day.unit.record.now (row_prices_of self.now.day.prices) self.now.period (code_of before) (code_of mark) }
    {
        let running = match mark {
            Mark::Running => runs,
            Mark::Stopped => Grains(0),
        };
        running + self.day.unit.start_part(before, mark) - self.allowed(before, mark)
    }

    // What a period weighs.
    fn weights(&self) -> PeriodWeights
        ensures run { result.run.0 ≡ weight_in self.now.day.unit.record.now (row_prices_of self.now.day.prices) self.now.period 1 1 }
        ensures start { result.start.0 ≡ weight_in self.now.day.unit.record.now (row_prices_of self.now.day.prices) self.now.period 0 1 }
        ensures stop { result.stop.0 ≡ weight_in self.now.day.unit.record.now (row_prices_of self.now.day.prices) self.now.period 1 0 }
    {
        let runs = self.running_weight();
        PeriodWeights {
            run: self.weight(runs, Mark::Running, Mark::Running),
            start: self.weight(runs, Mark::Stopped, Mark::Running),
            stop: self.weight(runs, Mark::Running, Mark::Stopped),
        }
    }
}

impl Priced<'_> {
    fn periods(&self) -> usize
        ensures { result ≡ length self.now.prices.net.now }
    {
        self.prices.net.len()
    }

    // The first period. There is one in each day.
    fn first(&self) -> PricedPeriod<'_>
        ensures day { result.day ≡ self.now }
        ensures period { result.period ≡ 0 }
    {
        PricedPeriod {
            day: *self,
            period: 0,
        }
    }

    // The walk back, from after the last period to the first. It goes by index, since a step reads cells further on.
    fn walk_back(&self) -> [Ahead; CELLS]
        ensures { Walked self.now.unit.record.now (row_prices_of self.now.prices) (length self.now.prices.net.now) 0 (ahead_of result) }
    {
        let mut walk = ended();
        for period in (0..self.periods()).rev() {
            let now = PricedPeriod { day: *self, period };
            let may_stop = now.free_from(self.unit.record.least_running);
            let may_start = now.free_from(self.unit.record.least_stopped);
            walk[period] = walk[period + 1].before(now.weights(), walk[may_stop], walk[may_start]);
        }
        walk
    }

    // The least weight of the day, from the state before it: a mark goes on for what it still owes of its least time.
    fn lightest(&self, walk: &[Ahead; CELLS]) -> Grains
        ensures told { result.0 ≡ from_before self.now.unit.record.now (length self.now.prices.net.now) (ahead_of walk.now) }
        ensures small { Within 130291200000000000 result.0 }
    {
        let before = State::from(&self.unit);
        match before.mark {
            Mark::Running => {
                let owed = before.owed(self.unit.record.least_running);
                walk[0].running_to(walk[owed.min(self.periods())])
            }
            Mark::Stopped => {
                let owed = before.owed(self.unit.record.least_stopped);
                walk[owed.min(self.periods())].off
            }
        }
    }

    // What the output before the day weighs at the first period's prices.
    fn carried(&self) -> Grains
        ensures told { result.0 ≡ pos 1000 *ℤ (at self.now.prices.fall.now 0 -ℤ at self.now.prices.rise.now 0) *ℤ self.now.unit.record.now.output }
        ensures small { Within 20000000000000 result.0 }
    {
        let first = self.first();
        (first.fall() - first.rise()).net() * State::from(&self.unit).output
    }

    // The least weight of the day and what the output before it weighs.
    fn weight_of_day(&self, walk: &[Ahead; CELLS]) -> Grains
        ensures { result.0 ≡ from_before self.now.unit.record.now (length self.now.prices.net.now) (ahead_of walk.now) +ℤ pos 1000 *ℤ (at self.now.prices.fall.now 0 -ℤ at self.now.prices.rise.now 0) *ℤ self.now.unit.record.now.output }
    {
        self.lightest(walk) + self.carried()
    }

    fn floor(&self) -> Grains
        ensures { result.0 ≡ floor self.now.unit.record.now (row_prices_of self.now.prices) (length self.now.prices.net.now) }
    {
        self.weight_of_day(&self.walk_back())
    }
}
