// Asks for the floor of one unit over and over, and tells on standard error how long that takes.
#![tactic(auto)]

use anyhow::anyhow;
use kinds::{CurveNumbers, MOST_PERIODS, RUNNING, ThermalUnit};
use market::{Fleet, RowPrices};
use measures::Grains;
use std::alloc::Global;
use std::array;
use std::time::Instant;
use thermal::Thermal;

const FLOORS: u32 = 20_000;

// The same number, written and read again: the compiler does not know it, and cannot work out ahead what is computed from it.
fn reread(heap: Global, number: u16) -> anyhow::Result<u16> {
    let text = format!(in heap; "{number}")?;
    Ok(text.as_str().parse::<u16>()?)
}

// Segment i goes from i + 1 to i + 2 widths, at 10 + 5 i times as many fen as a width has tenths of a megawatt.
fn curve(segments: u16, width: u16) -> CurveNumbers {
    CurveNumbers {
        segments: usize::from(segments),
        ends: array::from_fn(|place| i32::from(width).saturating_mul(place as i32 + 1)),
        prices: array::from_fn(|place| i32::from(width).saturating_mul(place as i32 * 5 + 10)),
    }
}

// A unit that has run so long that it may stop.
fn unit(segments: u16, width: u16, time: u16) -> ThermalUnit {
    ThermalUnit {
        node: 0,
        curve: curve(segments, width),
        no_load: 1_000,
        start_cost: 100_000,
        least_running: usize::from(time),
        least_stopped: usize::from(time),
        ramp_up: 500,
        ramp_down: 500,
        start_limit: i32::from(width),
        stop_limit: i32::from(width),
        mark: RUNNING,
        lasted: usize::from(time),
        output: i32::from(width),
    }
}

// A net price of 0 to 60,000,000 grains per tenth of a megawatt and period, another in each turn.
fn net_price(turn: u32) -> i64 {
    i64::from(turn.wrapping_mul(7_919) % 60_001) * 1_000
}

// Asks for floors over and over, with one net price changed in each turn, and tells their sum in grains, so that each is needed. A turn goes by
// its number, which makes the price and names its period.
fn sum_of_floors(table: &Thermal<'_>) -> i64 {
    let mut net = [30_000_000i64; MOST_PERIODS];
    let mut sum = 0i64;
    for turn in 0..FLOORS {
        net[turn as usize % MOST_PERIODS] = net_price(turn);
        let prices = RowPrices {
            net: &net,
            rise: &[1_000; MOST_PERIODS],
            fall: &[2_000; MOST_PERIODS],
        };
        if let Ok(Grains(floor)) = table.floor(0, &prices) {
            sum = sum.wrapping_add(floor);
        }
    }
    sum
}

fn time_floors(rt: &HostRuntime) -> anyhow::Result<()> {
    let heap = rt.alloc();
    let units = [unit(reread(heap, 10)?, reread(heap, 1_000)?, reread(heap, 96)?)];
    let mut table = Thermal::none();
    table
        .make(MOST_PERIODS, &units)
        .map_err(|_| anyhow!("the unit is refused"))?;
    let start = Instant::now(rt)?;
    let sum = sum_of_floors(&table);
    let micros = start.elapsed(rt)?.as_micros();
    eprintln!(rt; "{FLOORS} floors of {MOST_PERIODS} periods: {micros} microseconds")?;
    println!(rt; "{FLOORS} floors of {MOST_PERIODS} periods, {sum} grains together")?;
    Ok(())
}

fn main(rt: HostRuntime) -> anyhow::Result<()> {
    time_floors(&rt)
}
