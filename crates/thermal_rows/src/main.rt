// Reads one row a line from standard input, a thermal unit's record with a schedule and prices, and prints the verdict on the schedule
// and the row's floor at the prices. The rows that the run compares come from an independent implementation of the same rules.
#![tactic(auto)]

use kinds::{CurveNumbers, MOST_PERIODS, MOST_SEGMENTS, TableFault, ThermalUnit};
use market::{Broken, Fault, Fleet, RowPrices, Schedule};
use measures::Grains;
use std::alloc::{AllocError, AllocFailed, Global};
use std::io::{BufRead, BufReader};
use std::str::{FromStr, Split};
use std::{array, fmt, io};
use thermal::Thermal;

// Why a line gives no row.
#[derive(Drop)]
enum Unread {
    Malformed,
    OutOfMemory(AllocError),
}

impl From<AllocError> for Unread {
    fn from(error: AllocError) -> Unread {
        Unread::OutOfMemory(error)
    }
}

impl<T: Drop> From<AllocFailed<T>> for Unread {
    fn from(error: AllocFailed<T>) -> Unread {
        Unread::OutOfMemory(AllocError::from(error))
    }
}

// A unit with a schedule and with prices, each a cell for each period. Lists of their own, since a schedule and prices are lent as flat lists.
#[derive(Drop)]
struct Row {
    pub unit: ThermalUnit,
    pub marks: Vec<u8>,
    pub outputs: Vec<i32>,
    pub net: Vec<i64>,
    pub rise: Vec<i32>,
    pub fall: Vec<i32>,
}

// The next field as one number.
fn number<T: FromStr>(fields: &mut Split<'_, char>) -> Result<T, Unread>
where
    <T as FromStr>::Err: Drop,
{
    let field = fields.next().ok_or(Unread::Malformed)?;
    field.parse().map_err(|_| Unread::Malformed)
}

// The next field as a list of so many numbers. One word more than that is read, so that a longer field shows.
fn list<T: FromStr + Drop>(
    heap: Global,
    fields: &mut Split<'_, char>,
    many: usize,
) -> Result<Vec<T>, Unread>
where
    <T as FromStr>::Err: Drop,
{
    let field = fields.next().ok_or(Unread::Malformed)?;
    let numbers: Vec<T> = field
        .split_whitespace()
        .take(many.saturating_add(1))
        .map(|word| word.parse().map_err(|_| Unread::Malformed))
        .try_collect(heap)?;
    if numbers.len() == many {
        Ok(numbers)
    } else {
        Err(Unread::Malformed)
    }
}

// The numbers with zeros after them.
fn padded<const N: usize>(numbers: &[i32]) -> [i32; N] {
    array::from_fn(|place| numbers.get(place).copied().unwrap_or(0))
}

// `m;b0..bm;c1..cm`
fn curve(heap: Global, fields: &mut Split<'_, char>) -> Result<CurveNumbers, Unread> {
    let segments: usize = number(fields)?;
    if segments > MOST_SEGMENTS {
        return Err(Unread::Malformed);
    }
    let ends = list(heap, fields, segments + 1)?;
    let prices = list(heap, fields, segments)?;
    Ok(CurveNumbers {
        segments,
        ends: padded(&ends),
        prices: padded(&prices),
    })
}

// The curve, then `Z;S;U;V;RU;RD;SU;SD;mark;H;p0`
fn unit(heap: Global, fields: &mut Split<'_, char>) -> Result<ThermalUnit, Unread> {
    Ok(ThermalUnit {
        node: 0,
        curve: curve(heap, fields)?,
        no_load: number(fields)?,
        start_cost: number(fields)?,
        least_running: number(fields)?,
        least_stopped: number(fields)?,
        ramp_up: number(fields)?,
        ramp_down: number(fields)?,
        start_limit: number(fields)?,
        stop_limit: number(fields)?,
        mark: number(fields)?,
        lasted: number(fields)?,
        output: number(fields)?,
    })
}

// The number of periods, the unit, then the lists of marks, outputs, net prices, and prices of rises and of falls.
fn parsed(heap: Global, line: &str) -> Result<Row, Unread> {
    let mut fields = line.split(';');
    let periods: usize = number(&mut fields)?;
    if periods > MOST_PERIODS {
        return Err(Unread::Malformed);
    }
    let row = Row {
        unit: unit(heap, &mut fields)?,
        marks: list(heap, &mut fields, periods)?,
        outputs: list(heap, &mut fields, periods)?,
        net: list(heap, &mut fields, periods)?,
        rise: list(heap, &mut fields, periods)?,
        fall: list(heap, &mut fields, periods)?,
    };
    match fields.next() {
        Some(_) => Err(Unread::Malformed),
        None => Ok(row),
    }
}

#[derive(Clone, Copy)]
enum Answer {
    // The line is no row.
    Malformed,
    // A table of this unit alone is not made.
    Refused(TableFault),
    // The verdict on the schedule, and the floor at the prices.
    Told(Part, Part),
}

// An amount, or a rule and the period in which it is broken.
#[derive(Clone, Copy)]
struct Part(Result<Grains, Broken>);

impl fmt::Display for Part {
    fn fmt<W: fmt::Write>(&self, f: &mut fmt::Formatter<W>) -> fmt::Result {
        match self.0 {
            Ok(amount) => write!(f, "{amount}"),
            Err(broken) => {
                let Broken { rule, period } = broken;
                write!(f, "{rule}@{period}")
            }
        }
    }
}

impl fmt::Display for Answer {
    fn fmt<W: fmt::Write>(&self, f: &mut fmt::Formatter<W>) -> fmt::Result {
        match *self {
            Answer::Malformed => write!(f, "malformed"),
            Answer::Refused(fault) => write!(f, "refused;{}", fault.number()),
            Answer::Told(verdict, floor) => write!(f, "{verdict};{floor}"),
        }
    }
}

fn told(row: &Row) -> Answer {
    let units = [row.unit];
    let mut table = Thermal::none();
    if let Err(fault) = table.make(row.marks.len(), &units) {
        return Answer::Refused(fault);
    }
    let schedule = Schedule {
        marks: &row.marks,
        outputs: &row.outputs,
    };
    let prices = RowPrices {
        net: &row.net,
        rise: &row.rise,
        fall: &row.fall,
    };
    Answer::Told(
        Part(table.verdict(0, &schedule)),
        Part(table.floor(0, &prices)),
    )
}

fn answered(heap: Global, line: &str) -> Result<Answer, AllocError> {
    match parsed(heap, line) {
        Ok(row) => Ok(told(&row)),
        Err(Unread::Malformed) => Ok(Answer::Malformed),
        Err(Unread::OutOfMemory(error)) => Err(error),
    }
}

fn main(rt: HostRuntime) -> io::Result<()> {
    for line in BufReader::new(rt.alloc(), rt.stdin())?.lines(rt.alloc()) {
        let text = line?;
        let answer = answered(rt.alloc(), text.as_str())?;
        println!(rt; "{answer}")?;
    }
    Ok(())
}
