// A curve's numbers as they are handed in.

pub const MOST_SEGMENTS: usize = 10;

// Segment i goes from end i to end i + 1, in tenths of a megawatt, at price i, in fen. Ends and prices past the count are never looked at.
// The lists are arrays with a count beside: records are lent and read in place, and a library takes no memory.
#[derive(Clone, Copy)]
pub struct CurveNumbers {
    pub segments: usize,
    pub ends: [i32; MOST_SEGMENTS + 1],
    pub prices: [i32; MOST_SEGMENTS],
}
