// A day's numbers as they are handed in: tables that the caller lends, with the counts that say how they are to be read.

// The most that a day may count: periods of a quarter hour, and nodes.
pub(crate) const MOST_PERIODS: usize = 96;

pub(crate) const MOST_NODES: usize = 16;

// Loads lie node by node and then by period, in tenths of a megawatt; factors line by line and then node by node, in thousandths;
// limits line by line, in tenths of a megawatt.
#[derive(Clone, Copy)]
pub struct DayNumbers<'a> {
    pub periods: usize,
    pub nodes: usize,
    pub lines: usize,
    pub loads: &'a [i32],
    pub factors: &'a [i32],
    pub lower: &'a [i32],
    pub upper: &'a [i32],
}
