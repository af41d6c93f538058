// Making a day: its questions in order.
ghost use Rattle.std.specs.Prelude.{◌≡◌, ◌*◌, length, is_ok, if◌then◌else◌, MatchResult, ◌==◌};
ghost use Rattle.market.specs.Days.{Refused, Made, smallest_numbers, numbers_of, shape_test, lengths_test, Fits};
ghost use Rattle.market.specs.Scans.{Crossed};

use crate::day::Day;
use crate::day_fault::DayFault;
use crate::numbers::{DayNumbers, MOST_NODES, MOST_PERIODS};
use crate::scan::outside;

const MOST_LINES: usize = 16;

const MOST_LOAD: i32 = 40_000;

const MOST_FACTOR: i32 = 1_000;

const MOST_LIMIT: i32 = 200_000;

// Whether a table has just `items` times `each` cells; the product may be larger than any table. The reader of files has the same line: for one line
// neither crate is to stand on the other.
fn exact(len: usize, items: usize, each: usize) -> bool
    ensures { result ≡ (len == items * each) }
{
    items.checked_mul(each) == Some(len)
}

impl DayNumbers<'_> {
    fn shape_fits(&self) -> bool
        ensures { result ≡ shape_test (numbers_of self.now) }
    {
        (1 <= self.periods && self.periods <= MOST_PERIODS)
            && ((1 <= self.nodes && self.nodes <= MOST_NODES) && self.lines <= MOST_LINES)
    }

    fn lengths_fit(&self) -> bool
        ensures { result ≡ lengths_test (numbers_of self.now) }
    {
        exact(self.loads.len(), self.nodes, self.periods)
            && (exact(self.factors.len(), self.lines, self.nodes)
                && (self.lower.len() == self.lines && self.upper.len() == self.lines))
    }

    // The questions in order, up to the first that has the answer no.
    fn asked(&self) -> Result<(), DayFault>
        ensures { MatchResult result (λ _. Fits (numbers_of self.now)) (λ e. Refused (numbers_of self.now) e) }
    {
        if !self.shape_fits() {
            return Err(DayFault::Shape);
        }
        if !self.lengths_fit() {
            return Err(DayFault::Lengths);
        }
        if let Some(i) = outside(self.loads, -MOST_LOAD, MOST_LOAD) {
            return Err(DayFault::Load {
                node: i / self.periods,
                period: i % self.periods + 1,
            });
        }
        if let Some(i) = outside(self.factors, -MOST_FACTOR, MOST_FACTOR) {
            return Err(DayFault::Factor {
                line: i / self.nodes,
            });
        }
        if let Some(line) = outside(self.lower, -MOST_LIMIT, MOST_LIMIT) {
            return Err(DayFault::Lower { line });
        }
        if let Some(line) = outside(self.upper, -MOST_LIMIT, MOST_LIMIT) {
            return Err(DayFault::Upper { line });
        }
        match crossed(self.lower, self.upper) {
            Some(line) => Err(DayFault::Crossed { line }),
            None => Ok(()),
        }
    }
}

// The first line whose lower limit is above its upper.
fn crossed(lower: &[i32], upper: &[i32]) -> Option<usize>
    requires { length lower.now ≡ length upper.now }
    ensures { Crossed lower.now upper.now result }
{
    lower
        .iter()
        .zip(upper)
        .position(|(lower, upper)| lower > upper)
}

impl<'a> Day<'a> {
    // The smallest day there is: one period, one node, no load and no line. A place for `make` to fill.
    pub fn smallest() -> Day<'a>
        ensures { numbers_of result.numbers ≡ smallest_numbers }
    {
        Day {
            numbers: DayNumbers {
                periods: 1,
                nodes: 1,
                lines: 0,
                loads: &[0],
                factors: &[],
                lower: &[],
                upper: &[],
            },
        }
    }

    // Fills the place with a day of these numbers, or tells the first no and leaves it as it was.
    pub fn make(&mut self, numbers: DayNumbers<'a>) -> Result<(), DayFault>
        ensures answer { MatchResult result (λ _. Made (numbers_of numbers.entry)) (λ e. Refused (numbers_of numbers.entry) e) }
        ensures held { numbers_of self.new.numbers ≡ (if is_ok result then numbers_of numbers.entry else numbers_of self.old.numbers) }
    {
        *self = Day::try_from(numbers)?;
        Ok(())
    }
}

// A day of these numbers, or the first no.
impl<'a> TryFrom<DayNumbers<'a>> for Day<'a> {
    type Error = DayFault;

    ghost try_from_gives = { λ numbers made. MatchResult made (λ day. (numbers_of day.numbers ≡ numbers_of numbers) × Made (numbers_of numbers)) (λ e. Refused (numbers_of numbers) e) };

    fn try_from(value: DayNumbers<'a>) -> Result<Day<'a>, DayFault> {
        value.asked()?;
        Ok(Day { numbers: value })
    }
}
