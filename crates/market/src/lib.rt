// The market: a day and its numbers, fleets by what they mean, plans judged and price sets bounded.
#![tactic(auto)]

mod asking;
mod broken;
mod clearing;
mod day;
mod day_fault;
mod fault;
mod fleet;
mod label;
mod lengths;
mod numbers;
mod placing;
mod plan;
mod price_set;
mod refusal;
mod row_prices;
mod scan;
mod schedule;

pub use asking::{prices_asked, row_asked, schedule_asked, within_limits};
pub use broken::Broken;
pub use clearing::{bound, judge};
pub use day::Day;
pub use day_fault::DayFault;
pub use fault::Fault;
pub use fleet::{Fleet, floors_stand};
pub use label::{Label, label_of};
pub use lengths::{plan_lengths, price_lengths};
pub use numbers::DayNumbers;
pub use placing::place;
pub use plan::Plan;
pub use price_set::PriceSet;
pub use refusal::Refusal;
pub use row_prices::RowPrices;
pub use scan::outside;
pub use schedule::Schedule;
