// Making a table of thermal units: its questions in order.
ghost use Rattle.std.specs.Prelude.{◌≡◌, is_ok, not, if◌then◌else◌, MatchResult, OnOk};
ghost use Rattle.std.specs.List.{position};
ghost use Rattle.kinds.specs.ThermalLaws.{Laws};
ghost use Rattle.kinds.specs.ThermalTables.{table, no_rows, Made, Fits, Refused, costs_test, times_test, ramps_test, limits_test, state_test, numbers_test};
ghost use Rattle.thermal.specs.Held.{units_of};

use crate::mark::Mark;
use crate::ruling::{on_curve, output_fits};
use crate::table::Thermal;
use kinds::{TableFault, ThermalUnit, curves_fit, rows_fit};
use measures::Tenths;

// Yuan a running period, and yuan a start.
const MOST_NO_LOAD: u32 = 100_000;

const MOST_START_COST: u32 = 2_000_000;

// Periods: a least running or stopped time, and how long the mark before the day has lasted.
const MOST_LEAST_TIME: usize = 96;

const MOST_LASTED: usize = 10_000;

// Tenths of a megawatt.
const MOST_RAMP: i32 = 20_000;

// Whether the no_load cost and the start cost are in range.
fn costs_fit(unit: &ThermalUnit) -> bool
    ensures { result ≡ costs_test unit.now }
{
    unit.no_load <= MOST_NO_LOAD && unit.start_cost <= MOST_START_COST
}

// Whether the least running and the least stopped time are in range.
fn times_fit(unit: &ThermalUnit) -> bool
    ensures { result ≡ times_test unit.now }
{
    (1..=MOST_LEAST_TIME).contains(&unit.least_running)
        && (1..=MOST_LEAST_TIME).contains(&unit.least_stopped)
}

// Whether the ramps are in range.
fn ramps_fit(unit: &ThermalUnit) -> bool
    ensures { result ≡ ramps_test unit.now }
{
    (0..=MOST_RAMP).contains(&unit.ramp_up) && (0..=MOST_RAMP).contains(&unit.ramp_down)
}

// Whether the start limit and the stop limit lie on the curve.
fn limits_fit(unit: &ThermalUnit) -> bool
    ensures { result ≡ limits_test unit.now }
{
    on_curve(unit, Tenths(unit.start_limit)) && on_curve(unit, Tenths(unit.stop_limit))
}

// Whether the state before the day is one that a unit can have.
fn state_fits(unit: &ThermalUnit) -> bool
    ensures { result ≡ state_test unit.now }
{
    Mark::try_from(unit.mark).is_ok_and(|mark| {
        (1..=MOST_LASTED).contains(&unit.lasted) && output_fits(unit, mark, Tenths(unit.output))
    })
}

// Whether every number but the curve's is in range.
fn numbers_fit(unit: &ThermalUnit) -> bool
    ensures { result ≡ numbers_test unit.now }
{
    costs_fit(unit) && times_fit(unit) && ramps_fit(unit) && limits_fit(unit) && state_fits(unit)
}

// The first row that has another number out of its range.
fn no_row(units: &[ThermalUnit]) -> Option<usize>
    ensures { result ≡ position (λ u. not (numbers_test u)) units.now }
{
    units.iter().position(|unit| !numbers_fit(unit))
}

// The first question that has the answer no.
fn first_no(periods: usize, units: &[ThermalUnit]) -> Result<(), TableFault>
    ensures { MatchResult result (λ _. Fits (table periods units.now)) (λ e. Refused (table periods units.now) e) }
{
    rows_fit(periods, units.len())?;
    curves_fit(units)?;
    match no_row(units) {
        Some(row) => Err(TableFault::Row { row }),
        None => Ok(()),
    }
}

impl<'a> Thermal<'a> {
    // A table of one period and no row. A place for `make` to fill. Both stand for each kind: one for all would need one struct for all tables.
    pub fn none() -> Thermal<'a>
        ensures { units_of result ≡ no_rows }
    {
        Thermal {
            periods: 1,
            units: &[],
        }
    }

    // Fills the place with a table of these rows, or tells the first no and leaves it as it was.
    pub fn make(&mut self, periods: usize, units: &'a [ThermalUnit]) -> Result<(), TableFault>
        ensures answer { MatchResult result (λ _. Made (table periods units.now)) (λ e. Refused (table periods units.now) e) }
        ensures laws { OnOk result (Laws periods units.now) }
        ensures held { units_of self.new ≡ (if is_ok result then table periods units.now else units_of self.old) }
    {
        first_no(periods, units)?;
        *self = Thermal { periods, units };
        Ok(())
    }
}
