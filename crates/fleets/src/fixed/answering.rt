// A table of fixed schedules as a fleet.
ghost use Rattle.std.specs.Prelude.{◌≡◌, ◌<◌, length};
ghost use Rattle.market.specs.Clearing.{part};
ghost use Rattle.market.specs.Fleet.{schedule_of, row_prices_of, floor_answer};
ghost use Rattle.kinds.specs.Fixed.{fixed};
ghost use Rattle.kinds.proofs.FixedRows.{fixed_shows};
ghost use Rattle.kinds.proofs.FixedTables.{made_so};
ghost use Rattle.fleets.specs.Held.{rows_of};

use crate::fixed::Fixed;
use crate::fixed::row::Row;
use crate::judging::judged;
use crate::tables::part;
use market::{Broken, Fleet, RowPrices, Schedule, prices_asked, row_asked, schedule_asked};
use measures::Grains;

impl Fixed<'_> {
    // The row by itself: its part of the outputs.
    fn row(&self, row: usize) -> Row<'_>
        requires { row < length self.now.nodes.now }
        ensures { result.outputs.now ≡ part self.now.periods row self.now.outputs.now }
    {
        Row {
            outputs: part(self.outputs, row, self.periods),
        }
    }

    // The verdict on a row's schedule: a lawful one costs nothing.
    fn judged(&self, row: usize, schedule: &Schedule) -> Result<Grains, Broken>
        requires row { row < length self.now.nodes.now }
        requires marks { length schedule.now.marks.now ≡ self.now.periods }
        requires outputs { length schedule.now.outputs.now ≡ self.now.periods }
        ensures { result ≡ (fixed (rows_of self.now)).verdict row (schedule_of schedule.now) }
    {
        judged(&self.row(row), schedule)
    }

    // The row's floor, minus what its outputs earn, or the first no.
    fn priced(&self, row: usize, prices: &RowPrices) -> Result<Grains, Broken>
        ensures { result ≡ floor_answer (fixed (rows_of self.now)) row (row_prices_of prices.now) }
    {
        prices_asked(row, self.nodes.len(), self.periods, prices)?;
        Ok(Grains(0) - self.row(row).earned(prices.net))
    }
}

// An impl of its own: one for every table would be an impl for any type, which Rust lets only the trait's own crate write; and what each shows
// is its own proof.
impl Fleet for Fixed<'_> {
    ghost periods = { λ f. (fixed (rows_of f)).periods };

    ghost size = { λ f. (fixed (rows_of f)).size };

    ghost node = { λ f. (fixed (rows_of f)).node };

    ghost verdict = { λ f. (fixed (rows_of f)).verdict };

    ghost floor = { λ f. (fixed (rows_of f)).floor };

    ghost facts = { λ f. fixed_shows (rows_of f) (made_so (rows_of f) f.made) };

    fn periods(&self) -> usize {
        self.periods
    }

    fn size(&self) -> usize {
        self.nodes.len()
    }

    fn node(&self, row: usize) -> Result<usize, Broken> {
        row_asked(row, self.size())?;
        Ok(self.nodes[row])
    }

    fn verdict(&self, row: usize, schedule: &Schedule) -> Result<Grains, Broken> {
        schedule_asked(row, self.size(), self.periods, schedule)?;
        self.judged(row, schedule)
    }

    fn floor(&self, row: usize, prices: &RowPrices) -> Result<Grains, Broken> {
        self.priced(row, prices)
    }
}
