// The specimen's numbers, in tenths of a megawatt and fen: two periods, two nodes and one line; two thermal units and a station.
use kinds::{CurveNumbers, Station, ThermalUnit};

pub const PERIODS: usize = 2;

pub const NODES: usize = 2;

pub const LINES: usize = 1;

// Node 0 draws nothing; node 1 draws 500 and 600.
pub const LOADS: [i32; 4] = [0, 0, 500, 600];

// All that node 0 feeds in goes over the line.
pub const FACTORS: [i32; 2] = [1_000, 0];

pub const LOWER: [i32; 1] = [-300];

pub const UPPER: [i32; 1] = [300];

pub const UNITS: [ThermalUnit; 2] = [
    ThermalUnit {
        node: 0,
        curve: CurveNumbers {
            segments: 1,
            ends: [100, 400, 0, 0, 0, 0, 0, 0, 0, 0, 0],
            prices: [20_000, 0, 0, 0, 0, 0, 0, 0, 0, 0],
        },
        no_load: 0,
        start_cost: 100,
        least_running: 2,
        least_stopped: 2,
        ramp_up: 100,
        ramp_down: 100,
        start_limit: 200,
        stop_limit: 300,
        mark: 1,
        lasted: 4,
        output: 300,
    },
    ThermalUnit {
        node: 1,
        curve: CurveNumbers {
            segments: 2,
            ends: [100, 300, 500, 0, 0, 0, 0, 0, 0, 0, 0],
            prices: [30_000, 35_000, 0, 0, 0, 0, 0, 0, 0, 0],
        },
        no_load: 0,
        start_cost: 100,
        least_running: 2,
        least_stopped: 2,
        ramp_up: 100,
        ramp_down: 100,
        start_limit: 100,
        stop_limit: 100,
        mark: 1,
        lasted: 10,
        output: 200,
    },
];

pub const STATIONS: [Station; 1] = [Station {
    node: 1,
    curve: CurveNumbers {
        segments: 1,
        ends: [0, 200, 0, 0, 0, 0, 0, 0, 0, 0, 0],
        prices: [0, 0, 0, 0, 0, 0, 0, 0, 0, 0],
    },
}];

pub const AVAILABLE: [i32; 2] = [50, 20];
