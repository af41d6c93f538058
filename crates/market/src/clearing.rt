// A plan judged and a price set bounded.
mod judging;
mod net_prices;

pub use judging::judge;
pub use net_prices::bound;
