// A thermal unit's record as it is handed in.
use crate::curve_numbers::CurveNumbers;
use crate::curved::Curved;

#[derive(Clone, Copy)]
pub struct ThermalUnit {
    pub node: usize,
    pub curve: CurveNumbers,
    // Yuan a running period, and yuan a start.
    pub no_load: u32,
    pub start_cost: u32,
    // The least unbroken running and stopped times, in periods.
    pub least_running: usize,
    pub least_stopped: usize,
    // Tenths of a megawatt: the most that the output rises or falls from one running period to the next, and the most at a start and at a stop.
    pub ramp_up: i32,
    pub ramp_down: i32,
    pub start_limit: i32,
    pub stop_limit: i32,
    // The state before the day: the mark (1 running, 0 stopped), how many periods it has lasted, and the output in tenths of a megawatt.
    // The mark is a number, since records are handed in as they come and asked later.
    pub mark: u8,
    pub lasted: usize,
    pub output: i32,
}

impl Curved for ThermalUnit {
    ghost curve = { λ unit. unit.curve };

    fn curve(&self) -> &CurveNumbers {
        &self.curve
    }
}
