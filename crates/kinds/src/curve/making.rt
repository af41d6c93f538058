// Making a curve: its questions in order.
ghost use Rattle.std.specs.Prelude.{◌≡◌, MatchBool, MatchResult};
ghost use Rattle.kinds.specs.Curves.{CountFits, RangesFit, Rises, Made, Fits, Refused};

use crate::curve::Curve;
use crate::curve_fault::CurveFault;
use crate::curve_numbers::{CurveNumbers, MOST_SEGMENTS};
use market::outside;

const MOST_END: i32 = 20_000;

const MOST_PRICE: i32 = 200_000;

impl CurveNumbers {
    fn count_fits(&self) -> bool
        ensures { MatchBool result (CountFits self.now) (CountFits self.now → ⊥) }
    {
        (1..=MOST_SEGMENTS).contains(&self.segments)
    }

    fn ranges_fit(&self) -> bool
        requires { CountFits self.now }
        ensures { MatchBool result (RangesFit self.now) (RangesFit self.now → ⊥) }
    {
        outside(&self.ends[..self.segments + 1], 0, MOST_END).is_none()
            && outside(&self.prices[..self.segments], -MOST_PRICE, MOST_PRICE).is_none()
    }

    // Whether each end is above the one before it, and no price below the one before it.
    fn rises(&self) -> bool
        requires { CountFits self.now }
        ensures { MatchBool result (Rises self.now) (Rises self.now → ⊥) }
    {
        self.ends[..self.segments + 1].is_sorted_by(|a, b| a < b)
            && self.prices[..self.segments].is_sorted()
    }

    // The first question that has the answer no.
    fn first_no(&self) -> Result<(), CurveFault>
        ensures { MatchResult result (λ _. Fits self.now) (λ e. Refused self.now e) }
    {
        if !self.count_fits() {
            return Err(CurveFault::Count);
        }
        if !self.ranges_fit() {
            return Err(CurveFault::Range);
        }
        if !self.rises() {
            return Err(CurveFault::Order);
        }
        Ok(())
    }

    // Whether the numbers are those of a curve.
    // Thin over a private function, so that an edit that must fail is refused for the fact and not for its answers' file.
    pub fn check(&self) -> Result<(), CurveFault>
        ensures { MatchResult result (λ _. Fits self.now) (λ e. Refused self.now e) }
    {
        self.first_no()
    }
}

impl TryFrom<&CurveNumbers> for Curve {
    type Error = CurveFault;

    ghost try_from_gives = { λ numbers result. MatchResult result (λ curve. (curve.numbers ≡ numbers.now) × Made numbers.now) (λ e. Refused numbers.now e) };

    fn try_from(numbers: &CurveNumbers) -> Result<Curve, CurveFault> {
        numbers.check()?;
        Ok(Curve { numbers: *numbers })
    }
}
