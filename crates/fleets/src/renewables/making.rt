// Making a table of renewable stations: its questions in order.
ghost use Rattle.std.specs.Prelude.{◌≡◌, length, is_ok, if◌then◌else◌, MatchResult};
ghost use Rattle.kinds.specs.Renewables.{table, no_rows, ShapeFits, RowFits, RowRefused, RowsFit, NoRow, Made, Fits, Refused};
ghost use Rattle.fleets.specs.Held.{stations_of};

use crate::renewables::Renewables;
use crate::tables::shape_fits;
use kinds::{CurveNumbers, Station, TableFault, curves_fit};
use market::outside;

const MOST_AVAILABLE: i32 = 20_000;

// The first of a row's other numbers that is out of its range.
fn row_no(row: usize, curve: &CurveNumbers, available: &[i32]) -> Result<(), TableFault>
    ensures { MatchResult result (λ _. RowFits curve.now available.now) (λ e. RowRefused curve.now available.now row e) }
{
    if curve.ends[0] != 0 {
        return Err(TableFault::Row { row });
    }
    match outside(available, 0, MOST_AVAILABLE) {
        Some(t) => Err(TableFault::Cell { row, period: t + 1 }),
        None => Ok(()),
    }
}

// The first row that has such a number.
fn no_row(periods: usize, stations: &[Station], available: &[i32]) -> Result<(), TableFault>
    requires { ShapeFits (table periods stations.now available.now) }
    ensures { MatchResult result (λ _. RowsFit (table periods stations.now available.now) (length stations.now)) (λ e. NoRow (table periods stations.now available.now) e) }
{
    for (row, (station, power)) in stations
        .iter()
        .zip(available.chunks_exact(periods))
        .enumerate()
    {
        row_no(row, &station.curve, power)?;
    }
    Ok(())
}

// The first question that has the answer no. The three parts go along by themselves: together they are the table, which is not one yet.
fn first_no(periods: usize, stations: &[Station], available: &[i32]) -> Result<(), TableFault>
    ensures { MatchResult result (λ _. Fits (table periods stations.now available.now)) (λ e. Refused (table periods stations.now available.now) e) }
{
    shape_fits(periods, stations.len(), available.len())?;
    curves_fit(stations)?;
    no_row(periods, stations, available)
}

impl<'a> Renewables<'a> {
    // A table of one period and no row. A place for `make` to fill. Both stand for each kind: one for all would need one struct for all tables.
    pub fn none() -> Renewables<'a>
        ensures { stations_of result ≡ no_rows }
    {
        Renewables {
            periods: 1,
            stations: &[],
            available: &[],
        }
    }

    // Fills the place with a table of these rows, or tells the first no and leaves it as it was.
    pub fn make(
        &mut self,
        periods: usize,
        stations: &'a [Station],
        available: &'a [i32],
    ) -> Result<(), TableFault>
        ensures answer { MatchResult result (λ _. Made (table periods stations.now available.now)) (λ e. Refused (table periods stations.now available.now) e) }
        ensures held { stations_of self.new ≡ (if is_ok result then table periods stations.now available.now else stations_of self.old) }
    {
        first_no(periods, stations, available)?;
        *self = Renewables {
            periods,
            stations,
            available,
        };
        Ok(())
    }
}
