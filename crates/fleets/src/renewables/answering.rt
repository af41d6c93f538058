// A table of renewable stations as a fleet.
ghost use Rattle.std.specs.Prelude.{◌≡◌, ◌<◌, length};
ghost use Rattle.market.specs.Fleet.{schedule_of, row_prices_of, floor_answer};
ghost use Rattle.kinds.specs.Renewables.{curve, power, renewables};
ghost use Rattle.kinds.proofs.RenewableRows.{renewables_show};
ghost use Rattle.kinds.proofs.RenewableTables.{made_so};
ghost use Rattle.fleets.specs.Held.{stations_of};

use crate::judging::judged;
use crate::renewables::Renewables;
use crate::renewables::row::Row;
use crate::tables::part;
use kinds::Curve;
use market::{Broken, Fleet, RowPrices, Schedule, prices_asked, row_asked, schedule_asked};
use measures::Grains;

impl Renewables<'_> {
    // The row by itself: its curve, and its part of the available power.
    fn row(&self, row: usize) -> Row<'_>
        requires { row < length self.now.stations.now }
        ensures curve { result.curve.numbers ≡ curve (stations_of self.now) row }
        ensures available { result.available.now ≡ power (stations_of self.now) row }
    {
        Row {
            curve: Curve {
                numbers: self.stations[row].curve,
            },
            available: part(self.available, row, self.periods),
        }
    }

    // The verdict on a row's schedule: a lawful one costs its running costs.
    fn judged(&self, row: usize, schedule: &Schedule) -> Result<Grains, Broken>
        requires row { row < length self.now.stations.now }
        requires marks { length schedule.now.marks.now ≡ self.now.periods }
        requires outputs { length schedule.now.outputs.now ≡ self.now.periods }
        ensures { result ≡ (renewables (stations_of self.now)).verdict row (schedule_of schedule.now) }
    {
        judged(&self.row(row), schedule)
    }

    // The row's floor, the leasts of its periods, or the first no.
    fn priced(&self, row: usize, prices: &RowPrices) -> Result<Grains, Broken>
        ensures { result ≡ floor_answer (renewables (stations_of self.now)) row (row_prices_of prices.now) }
    {
        prices_asked(row, self.stations.len(), self.periods, prices)?;
        Ok(self.row(row).leasts(prices.net))
    }
}

// An impl of its own: one for every table would be an impl for any type, which Rust lets only the trait's own crate write; and what each shows
// is its own proof.
impl Fleet for Renewables<'_> {
    ghost periods = { λ f. (renewables (stations_of f)).periods };

    ghost size = { λ f. (renewables (stations_of f)).size };

    ghost node = { λ f. (renewables (stations_of f)).node };

    ghost verdict = { λ f. (renewables (stations_of f)).verdict };

    ghost floor = { λ f. (renewables (stations_of f)).floor };

    ghost facts = { λ f. renewables_show (stations_of f) (made_so (stations_of f) f.made) };

    fn periods(&self) -> usize {
        self.periods
    }

    fn size(&self) -> usize {
        self.stations.len()
    }

    fn node(&self, row: usize) -> Result<usize, Broken> {
        row_asked(row, self.size())?;
        Ok(self.stations[row].node)
    }

    fn verdict(&self, row: usize, schedule: &Schedule) -> Result<Grains, Broken> {
        schedule_asked(row, self.size(), self.periods, schedule)?;
        self.judged(row, schedule)
    }

    fn floor(&self, row: usize, prices: &RowPrices) -> Result<Grains, Broken> {
        self.priced(row, prices)
    }
}
