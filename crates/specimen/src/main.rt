// Reads one vendor's file from standard input for the specimen's day, and prints its fault or a record of what it holds.
#![tactic(auto)]

use arrayvec::ArrayVec;
use std::io::Read;
use std::{fmt, io};
use vendor::{Cells, Counts, FileFault, Shape};

// The shape and the limit of `specimen_day` again: this program stands on the reader alone.
const PERIODS: usize = 2;

const LINES: usize = 1;

const SIZE: usize = 3;

const SHAPE: Shape = Shape {
    periods: PERIODS,
    lines: LINES,
    size: SIZE,
};

// A cell for each row and period, for each line and period, and for each period.
const ROW_CELLS: usize = SIZE * PERIODS;

const LINE_CELLS: usize = LINES * PERIODS;

type DayCells = Cells<ROW_CELLS, LINE_CELLS, PERIODS>;

const MOST_BYTES: usize = 65_536;

// One byte more than is taken, so that a longer input shows. What is read is held in place: a program for so small a file may not run out of memory.
const READ_BYTES: usize = MOST_BYTES + 1;

// The file's rows by letter.
#[derive(Clone, Copy)]
struct Held(Counts);

impl fmt::Display for Held {
    fn fmt<W: fmt::Write>(&self, f: &mut fmt::Formatter<W>) -> fmt::Result {
        let Counts {
            outputs,
            system,
            lines,
            ramps,
        } = self.0;
        write!(f, "R;{outputs}\nS;{system}\nL;{lines}\nG;{ramps}")
    }
}

// The file's rows by letter, or its fault.
fn judge(file: &[u8]) -> Result<Held, FileFault> {
    if file.len() > MOST_BYTES {
        return Err(FileFault::Whole);
    }
    DayCells::empty().read(file, &SHAPE).map(Held)
}

fn main(rt: HostRuntime) -> io::Result<()> {
    let mut file = ArrayVec::<u8, READ_BYTES>::new();
    io::copy(&mut rt.stdin().take(READ_BYTES as u64), &mut file)?;
    match judge(file.as_slice()) {
        Ok(held) => println!(rt; "{held}"),
        Err(fault) => println!(rt; "file;{fault}"),
    }
}
