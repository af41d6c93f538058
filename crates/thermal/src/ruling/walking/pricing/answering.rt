// A table of thermal units as a fleet.
ghost use Rattle.std.specs.Prelude.{◌≡◌, ◌<◌, length};
ghost use Rattle.market.specs.Fleet.{schedule_of, row_prices_of, verdict_answer, floor_answer};
ghost use Rattle.kinds.specs.Thermal.{unit, units};
ghost use Rattle.kinds.proofs.ThermalTables.{made_so};
ghost use Rattle.kinds.proofs.Units.{facts as units-show};
ghost use Rattle.thermal.specs.Held.{units_of};

use crate::ruling::Unit;
use crate::ruling::walking::pricing::Priced;
use crate::table::Thermal;
use market::{Broken, Fleet, RowPrices, Schedule, prices_asked, row_asked, schedule_asked};
use measures::Grains;

impl Thermal<'_> {
    fn unit(&self, row: usize) -> Unit<'_>
        requires { row < length self.now.units.now }
        ensures { result.record.now ≡ unit self.now.units.now row }
    {
        Unit {
            record: &self.units[row],
        }
    }

    // The verdict on a row's schedule, where there is such a row and the schedule has a cell for each period.
    fn ruled(&self, row: usize, schedule: &Schedule) -> Result<Grains, Broken>
        ensures { result ≡ verdict_answer (units self.now.periods self.now.units.now) row (schedule_of schedule.now) }
    {
        schedule_asked(row, self.units.len(), self.periods, schedule)?;
        self.unit(row).judged(schedule)
    }

    // The row's floor, where there is such a row and the prices are within their limits in each period.
    fn priced(&self, row: usize, prices: &RowPrices) -> Result<Grains, Broken>
        ensures { result ≡ floor_answer (units self.now.periods self.now.units.now) row (row_prices_of prices.now) }
    {
        prices_asked(row, self.units.len(), self.periods, prices)?;
        let priced = Priced {
            unit: self.unit(row),
            prices: *prices,
        };
        Ok(priced.floor())
    }
}

// An impl of its own: one for every table would be an impl for any type, which Rust lets only the trait's own crate write; and what each shows
// is its own proof.
impl Fleet for Thermal<'_> {
    ghost periods = { λ f. (units (units_of f).periods (units_of f).units).periods };

    ghost size = { λ f. (units (units_of f).periods (units_of f).units).size };

    ghost node = { λ f. (units (units_of f).periods (units_of f).units).node };

    ghost verdict = { λ f. (units (units_of f).periods (units_of f).units).verdict };

    ghost floor = { λ f. (units (units_of f).periods (units_of f).units).floor };

    ghost facts = { λ f. units-show (units_of f).periods (units_of f).units (made_so (units_of f) f.made) };

    fn periods(&self) -> usize {
        self.periods
    }

    fn size(&self) -> usize {
        self.units.len()
    }

    fn node(&self, row: usize) -> Result<usize, Broken> {
        row_asked(row, self.units.len())?;
        Ok(self.units[row].node)
    }

    fn verdict(&self, row: usize, schedule: &Schedule) -> Result<Grains, Broken> {
        self.ruled(row, schedule)
    }

    fn floor(&self, row: usize, prices: &RowPrices) -> Result<Grains, Broken> {
        self.priced(row, prices)
    }
}
