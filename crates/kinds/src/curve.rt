// A curve whose numbers are in range and rise.
mod costs;
mod making;

ghost use Rattle.std.specs.Prelude.{◌≡◌, true};
ghost use Rattle.kinds.specs.Curves.{made_test};

use crate::CurveNumbers;

#[derive(Clone, Copy)]
pub struct Curve {
    pub numbers: CurveNumbers,
    ghost made: { made_test numbers ≡ true },
}
