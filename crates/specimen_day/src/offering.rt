// A plan and prices judged and bounded for the specimen's day and fleet.
ghost use Rattle.market.specs.Bounding as Bounding;
ghost use Rattle.market.specs.Judging as Judging;
ghost use Rattle.std.specs.Prelude.{◌≡◌};
ghost use Rattle.vendor.specs.Cells.{owned};
ghost use Rattle.specimen_day.specs.Specimen.{day, fleet, plan, prices, Answered, Tells, StarsFollow};

use crate::answers::Answers;
use crate::rows::{
    AVAILABLE, FACTORS, LINES, LOADS, LOWER, NODES, PERIODS, STATIONS, UNITS, UPPER,
};
use fleets::{Joined, Renewables};
use market::{Day, DayNumbers, Plan, PriceSet, bound, judge};
use thermal::Thermal;
use vendor::{Cells, FileFault, Shape};

// The longest file that is read.
pub const MOST_BYTES: usize = 65_536;

// Two units and a station.
const SIZE: usize = 3;

// A cell for each row and period, for each line and period, and for each period.
const ROW_CELLS: usize = SIZE * PERIODS;

const LINE_CELLS: usize = LINES * PERIODS;

type DayCells = Cells<ROW_CELLS, LINE_CELLS, PERIODS>;

// The plan judged, and the prices bounded.
fn offered(plan: &Plan, prices: &PriceSet) -> Answers
    ensures plan { Judging.Told day fleet (Judging.plan_of plan.now) result.plan }
    ensures prices { Bounding.Told day fleet (Bounding.prices_of prices.now) result.prices }
{
    let day = Day {
        numbers: DayNumbers {
            periods: PERIODS,
            nodes: NODES,
            lines: LINES,
            loads: &LOADS,
            factors: &FACTORS,
            lower: &LOWER,
            upper: &UPPER,
        },
    };
    let first = Thermal {
        periods: PERIODS,
        units: &UNITS,
    };
    let second = Renewables {
        periods: PERIODS,
        stations: &STATIONS,
        available: &AVAILABLE,
    };
    let fleet = Joined { first, second };
    Answers {
        plan: judge(&day, &fleet, plan),
        prices: bound(&day, &fleet, prices),
    }
}

// What the cells hold, offered.
fn held(cells: &DayCells) -> Answers
    ensures plan { Judging.Told day fleet (plan (owned cells.now)) result.plan }
    ensures prices { Bounding.Told day fleet (prices (owned cells.now)) result.prices }
{
    let plan = Plan {
        marks: &cells.marks,
        outputs: &cells.outputs,
    };
    let prices = PriceSet {
        system: &cells.system,
        upper: &cells.upper,
        lower: &cells.lower,
        rise: &cells.rise,
        fall: &cells.fall,
    };
    offered(&plan, &prices)
}

// A file of at most 65,536 bytes, read into empty cells.
fn short(file: &[u8]) -> Result<Answers, FileFault>
    ensures { Answered file.now result }
{
    let mut cells = DayCells::empty();
    cells.read(
        file,
        &Shape {
            periods: PERIODS,
            lines: LINES,
            size: SIZE,
        },
    )?;
    Ok(held(&cells))
}

// How a vendor's file is answered: its fault, or its plan judged and its prices bounded.
pub fn answer(file: &[u8]) -> Result<Answers, FileFault>
    ensures { Tells file.now result }
{
    if file.len() > MOST_BYTES {
        return Err(FileFault::Whole);
    }
    short(file)
}

// The files of one table are answered as it says: the contract is the theorem.
pub fn stars_follow() -> u8
    ensures { StarsFollow }
{
    0
}
