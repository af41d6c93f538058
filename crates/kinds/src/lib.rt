// Curves, the records of units and stations, and what each kind of fleet means: definitions, and the proofs that each kind shows the
// facts of a fleet.
#![tactic(auto)]

mod curve;
mod curve_fault;
mod curve_numbers;
mod curved;
mod rule;
mod station;
mod table_fault;
mod tables;
mod thermal_unit;

pub use curve::Curve;
pub use curve_fault::CurveFault;
pub use curve_numbers::{CurveNumbers, MOST_SEGMENTS};
pub use curved::{Curved, curves_fit};
pub use rule::{RUNNING, Rule};
pub use station::Station;
pub use table_fault::TableFault;
pub use tables::{MOST_PERIODS, MOST_ROWS, rows_fit};
pub use thermal_unit::ThermalUnit;
