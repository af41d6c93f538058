// What a row is priced at, a cell for each period: net prices in grains per tenth and period, and prices of its rises and falls in fen.
#[derive(Clone, Copy)]
pub struct RowPrices<'a> {
    pub net: &'a [i64],
    pub rise: &'a [i32],
    pub fall: &'a [i32],
}
