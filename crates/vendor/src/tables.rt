// The lent tables that a file fills.
mod cells;
mod reading;

ghost use Rattle.std.specs.Prelude.{◌≡◌, ◌+◌, ◌*◌, ◌<◌, ◌≤◌, length, replicate, pos, ◌==◌};
ghost use Rattle.vendor.specs.Files.{RightLengths, cell, contents, sized, one_more};
ghost use Rattle.vendor.specs.Fills.{SamePlaces, cleared, written, NamesACell, Room};

use crate::rows::{Entry, Shape};
pub use cells::Cells;
pub use reading::read;

// A struct of seven slices by a rule of the project. Cells lie item by item and then by period: rows by periods for marks, outputs, rise and fall
// prices, lines by periods for upper and lower prices, and one system price for each period.
#[derive(Drop)]
pub struct Tables<'a> {
    pub marks: &'a mut [u8],
    pub outputs: &'a mut [i32],
    pub system: &'a mut [i32],
    pub upper: &'a mut [i32],
    pub lower: &'a mut [i32],
    pub rise: &'a mut [i32],
    pub fall: &'a mut [i32],
}

// How many rows a file has of each letter: R, S, L and G.
#[derive(Clone, Copy, PartialEq, Eq, Debug, Default)]
pub struct Counts {
    pub outputs: usize,
    pub system: usize,
    pub lines: usize,
    pub ramps: usize,
}

const MOST_ROWS: usize = 32;

// Whether a table has just `items` times `periods` cells; the product may be larger than any table. The market has the same line: for one line
// neither crate is to stand on the other.
fn exact(len: usize, items: usize, periods: usize) -> bool
    ensures { result ≡ (len == items * periods) }
{
    items.checked_mul(periods) == Some(len)
}

impl Shape {
    // The cell of an item in a period.
    fn cell(&self, item: usize, period: usize) -> usize
        requires { (1 ≤ period) × (cell self.now item period < 18446744073709551616) }
        ensures { result ≡ cell self.now item period }
    {
        item * self.periods + (period - 1)
    }
}

impl Tables<'_> {
    // Whether the size is at most 32 and every table has its exact length.
    pub fn fit(&self, shape: &Shape) -> bool
        ensures { result ≡ sized shape.now (contents self.now) }
    {
        shape.size <= MOST_ROWS
            && exact(self.marks.len(), shape.size, shape.periods)
            && exact(self.outputs.len(), shape.size, shape.periods)
            && self.system.len() == shape.periods
            && exact(self.upper.len(), shape.lines, shape.periods)
            && exact(self.lower.len(), shape.lines, shape.periods)
            && exact(self.rise.len(), shape.size, shape.periods)
            && exact(self.fall.len(), shape.size, shape.periods)
    }

    // Zero in every cell.
    pub fn clear(&mut self)
        ensures held { contents self.new ≡ cleared (contents self.old) }
        ensures places { SamePlaces self.old self.new }
    {
        self.marks.fill(0);
        self.outputs.fill(0);
        self.system.fill(0);
        self.upper.fill(0);
        self.lower.fill(0);
        self.rise.fill(0);
        self.fall.fill(0);
    }

    // A row's numbers into the cells that it names.
    fn write(&mut self, shape: &Shape, entry: &Entry)
        requires { (NamesACell shape.now entry.now) × (RightLengths shape.now (contents self.old)) }
        ensures held { contents self.new ≡ written shape.now entry.now (contents self.old) }
        ensures places { SamePlaces self.old self.new }
    {
        match *entry {
            Entry::Output {
                row,
                period,
                mark,
                output,
            } => {
                let cell = shape.cell(row, period);
                self.marks[cell] = mark;
                self.outputs[cell] = output;
            }
            Entry::System { period, price } => self.system[period - 1] = price,
            Entry::Line {
                line,
                period,
                upper,
                lower,
            } => {
                let cell = shape.cell(line, period);
                self.upper[cell] = upper;
                self.lower[cell] = lower;
            }
            Entry::Ramp {
                row,
                period,
                rise,
                fall,
            } => {
                let cell = shape.cell(row, period);
                self.rise[cell] = rise;
                self.fall[cell] = fall;
            }
        }
    }
}

impl Counts {
    // One row more of the row's letter.
    fn add(&mut self, entry: &Entry)
        requires { Room self.old }
        ensures { self.new ≡ one_more entry.now self.old }
    {
        match entry {
            Entry::Output { .. } => self.outputs += 1,
            Entry::System { .. } => self.system += 1,
            Entry::Line { .. } => self.lines += 1,
            Entry::Ramp { .. } => self.ramps += 1,
        }
    }
}
