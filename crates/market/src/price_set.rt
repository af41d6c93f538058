// The limit of every price in fen: of a system price to either side of zero, of the others from zero up.
pub(crate) const MOST_PRICE: i32 = 1_000_000;

// A price set, as it is handed in, in fen: a system price for each period; prices of upper and of lower limits line by line, prices of
// rises and of falls row by row, and then by period.
#[derive(Clone, Copy)]
pub struct PriceSet<'a> {
    pub system: &'a [i32],
    pub upper: &'a [i32],
    pub lower: &'a [i32],
    pub rise: &'a [i32],
    pub fall: &'a [i32],
}
