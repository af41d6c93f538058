// A renewable station as it is handed in.
use crate::curve_numbers::CurveNumbers;
use crate::curved::Curved;

// The node at which the station feeds in, and its curve, which begins at 0.
#[derive(Clone, Copy)]
pub struct Station {
    pub node: usize,
    pub curve: CurveNumbers,
}

impl Curved for Station {
    ghost curve = { λ station. station.curve };

    fn curve(&self) -> &CurveNumbers {
        &self.curve
    }
}
