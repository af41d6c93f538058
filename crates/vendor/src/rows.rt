// The four kinds of row: as parts of the file, and as the numbers that these write.
ghost use Rattle.std.specs.Prelude.{◌≡◌};
ghost use Rattle.vendor.specs.Rows.{any, one_of, field_answer, natural_answer, fields_of, numbers_answer, place_of};

use crate::faults::FieldFault;
use crate::numbers::parse;

// What a file is read for: the day's periods and lines, and the size told for the fleet.
#[derive(Clone, Copy, PartialEq, Eq, Debug)]
pub struct Shape {
    pub periods: usize,
    pub lines: usize,
    pub size: usize,
}

// A row as it stands in the file; each field is a part of the file.
#[derive(Clone, Copy, PartialEq, Eq, Debug)]
pub enum Row<'a> {
    Output {
        row: &'a [u8],
        period: &'a [u8],
        mark: &'a [u8],
        output: &'a [u8],
    },
    System {
        period: &'a [u8],
        price: &'a [u8],
    },
    Line {
        line: &'a [u8],
        period: &'a [u8],
        upper: &'a [u8],
        lower: &'a [u8],
    },
    Ramp {
        row: &'a [u8],
        period: &'a [u8],
        rise: &'a [u8],
        fall: &'a [u8],
    },
}

// The same with its numbers read; a row, a line and a period lie in the shape that it was read for.
// An enum of its own, since one over any fields would take three type parameters, and every contract on fields would speak of them.
#[derive(Clone, Copy, PartialEq, Eq, Debug)]
pub enum Entry {
    Output {
        row: usize,
        period: usize,
        mark: u8,
        output: i32,
    },
    System {
        period: usize,
        price: i32,
    },
    Line {
        line: usize,
        period: usize,
        upper: i32,
        lower: i32,
    },
    Ramp {
        row: usize,
        period: usize,
        rise: i32,
        fall: i32,
    },
}

// A letter of the file, in the order in which they come.
#[derive(Clone, Copy)]
pub enum Group {
    Outputs,
    System,
    Lines,
    Ramps,
}

// Where the last row stands in the order; an S row has index 0.
#[derive(Clone, Copy)]
pub struct Last {
    pub group: Group,
    pub index: usize,
    pub period: usize,
}

const MARKS: usize = 256;

// The number in a field, which stands at place `field` in its row.
fn number(text: &[u8], field: usize) -> Result<i32, FieldFault>
    ensures { result ≡ field_answer any field text.now }
{
    parse(text).ok_or(FieldFault::Malformed { field })
}

// The number in a field, of which there may be `count` from `FIRST` on.
fn natural<const FIRST: usize>(text: &[u8], field: usize, count: usize) -> Result<usize, FieldFault>
    ensures { result ≡ natural_answer (one_of FIRST count) field text.now }
{
    match usize::try_from(number(text, field)?) {
        Ok(value) if FIRST <= value && value - FIRST < count => Ok(value),
        _ => Err(FieldFault::OutOfRange { field }),
    }
}

impl Row<'_> {
    // The numbers of the row, or the fault of its first faulty field. `as` is exact below 256; `try_from` would have a case that never comes.
    pub fn numbers(&self, shape: &Shape) -> Result<Entry, FieldFault>
        ensures { result ≡ numbers_answer shape.now (fields_of self.now) }
    {
        match self {
            Row::Output {
                row,
                period,
                mark,
                output,
            } => Ok(Entry::Output {
                row: natural::<0>(row, 2, shape.size)?,
                period: natural::<1>(period, 3, shape.periods)?,
                mark: natural::<0>(mark, 4, MARKS)? as u8,
                output: number(output, 5)?,
            }),
            Row::System { period, price } => Ok(Entry::System {
                period: natural::<1>(period, 2, shape.periods)?,
                price: number(price, 3)?,
            }),
            Row::Line {
                line,
                period,
                upper,
                lower,
            } => Ok(Entry::Line {
                line: natural::<0>(line, 2, shape.lines)?,
                period: natural::<1>(period, 3, shape.periods)?,
                upper: number(upper, 4)?,
                lower: number(lower, 5)?,
            }),
            Row::Ramp {
                row,
                period,
                rise,
                fall,
            } => Ok(Entry::Ramp {
                row: natural::<0>(row, 2, shape.size)?,
                period: natural::<1>(period, 3, shape.periods)?,
                rise: number(rise, 4)?,
                fall: number(fall, 5)?,
            }),
        }
    }
}

impl Entry {
    // Where the row stands in the order of the file: for other crates, which cannot name the type of the answer.
    pub fn place(&self) -> Last
        ensures { result ≡ place_of self.now }
    {
        Last::from(self)
    }
}

// Where the row stands in the order of the file.
impl From<&Entry> for Last {
    ghost from_gives = { λ entry place. place ≡ place_of entry.now };

    fn from(entry: &Entry) -> Last {
        match *entry {
            Entry::Output { row, period, .. } => Last {
                group: Group::Outputs,
                index: row,
                period,
            },
            Entry::System { period, .. } => Last {
                group: Group::System,
                index: 0,
                period,
            },
            Entry::Line { line, period, .. } => Last {
                group: Group::Lines,
                index: line,
                period,
            },
            Entry::Ramp { row, period, .. } => Last {
                group: Group::Ramps,
                index: row,
                period,
            },
        }
    }
}
