// Reads a full file, 96 periods, 16 lines and 32 rows, over and over, and tells on standard error how long one reading takes.
#![tactic(auto)]

use std::alloc::{AllocError, Global};
use std::time::Instant;
use vendor::{Cells, Counts, FileFault, Shape};

const PERIODS: usize = 96;

const LINES: usize = 16;

const SIZE: usize = 32;

// A cell for each row and period, for each line and period, and for each period.
const ROW_CELLS: usize = SIZE * PERIODS;

const LINE_CELLS: usize = LINES * PERIODS;

type DayCells = Cells<ROW_CELLS, LINE_CELLS, PERIODS>;

const READINGS: u32 = 200;

// One row for each row of the fleet, or line, and period; the numbers have the lengths that real files have.
fn add_rows(heap: Global, text: &mut String, letter: char, items: usize) -> Result<(), AllocError> {
    for item in 0..items {
        for period in 1..=PERIODS {
            let line = format!(in heap; "{letter};{item};{period};1;1000\n")?;
            text.push_str(line.as_str())?;
        }
    }
    Ok(())
}

fn full_file(heap: Global) -> Result<String, AllocError> {
    let mut text = String::new(heap);
    add_rows(heap, &mut text, 'R', SIZE)?;
    for period in 1..=PERIODS {
        let line = format!(in heap; "S;{period};40000\n")?;
        text.push_str(line.as_str())?;
    }
    add_rows(heap, &mut text, 'L', LINES)?;
    add_rows(heap, &mut text, 'G', SIZE)?;
    Ok(text)
}

fn read_once(file: &[u8]) -> Result<Counts, FileFault> {
    DayCells::empty().read(
        file,
        &Shape {
            periods: PERIODS,
            lines: LINES,
            size: SIZE,
        },
    )
}

fn main(rt: HostRuntime) -> anyhow::Result<()> {
    let text = full_file(rt.alloc())?;
    let file = text.as_bytes();
    let start = Instant::now(&rt)?;
    let mut rows = 0usize;
    for _ in 0..READINGS {
        if let Ok(counts) = read_once(file) {
            rows = counts.outputs;
        }
    }
    let micros = start.elapsed(&rt)?.as_micros();
    let len = file.len();
    eprintln!(rt; "{READINGS} readings of {len} bytes: {micros} microseconds")?;
    println!(rt; "{len} bytes, {rows} R rows")?;
    Ok(())
}
