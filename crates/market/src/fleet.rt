// A fleet by what it means: where its rows stand, its verdicts and its floors. Every call answers for every input.
ghost use Rattle.std.specs.Prelude.{◌≡◌, ℕ, Result};
ghost use Rattle.measures.specs.declared.Grains.{Grains};
ghost use Rattle.market.specs.declared.broken.Broken.{Broken};
ghost use Rattle.market.specs.Fleet.{Facts, Schedule, RowPrices, meaning_of, schedule_of, row_prices_of, node_answer, verdict_answer, floor_answer};
ghost use Rattle.market.specs.Clearing.{FloorsStand};

use crate::broken::Broken;
use crate::row_prices::RowPrices;
use crate::schedule::Schedule;
use measures::Grains;

pub trait Fleet {
    ghost periods: { Self → ℕ };

    ghost size: { Self → ℕ };

    ghost node: { Self → ℕ → ℕ };

    ghost verdict: { Self → ℕ → Schedule → Result Grains Broken };

    ghost floor: { Self → ℕ → RowPrices → Grains };

    fn periods(&self) -> usize
        ensures { result ≡ periods self.now };

    fn size(&self) -> usize
        ensures { result ≡ size self.now };

    // The node at which a row feeds in.
    fn node(&self, row: usize) -> Result<usize, Broken>
        ensures { result ≡ node_answer (meaning_of (periods self.now) (size self.now) (node self.now) (verdict self.now) (floor self.now)) row };

    // The cost of a row's lawful schedule, or the first rule that it breaks.
    fn verdict(&self, row: usize, schedule: &Schedule) -> Result<Grains, Broken>
        ensures { result ≡ verdict_answer (meaning_of (periods self.now) (size self.now) (node self.now) (verdict self.now) (floor self.now)) row (schedule_of schedule.now) };

    // The row's floor at these prices.
    fn floor(&self, row: usize, prices: &RowPrices) -> Result<Grains, Broken>
        ensures { result ≡ floor_answer (meaning_of (periods self.now) (size self.now) (node self.now) (verdict self.now) (floor self.now)) row (row_prices_of prices.now) };

    ghost facts: { (f : Self) → Facts (meaning_of (periods f) (size f) (node f) (verdict f) (floor f)) };
}

// No lawful plan costs less than the floor that a price set gives, for every day, fleet and price set: the contract is the theorem.
pub fn floors_stand() -> u8
    ensures { FloorsStand }
{
    0
}
