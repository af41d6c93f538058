// Rows that have a curve, and the first of them whose curve is not one.
ghost use Rattle.std.specs.Prelude.{◌≡◌, length, MatchResult};
ghost use Rattle.kinds.specs.declared.curve_numbers.CurveNumbers.{CurveNumbers as Handed};
ghost use Rattle.kinds.specs.Tables.{curve_in, CurvesFit, NoCurve};

use crate::curve_numbers::CurveNumbers;
use crate::table_fault::TableFault;

pub trait Curved {
    ghost curve: { Self → Handed };

    fn curve(&self) -> &CurveNumbers
        ensures { result.now ≡ curve self.now };
}

// The first row whose curve is not one.
fn first_uncurved<R: Curved>(rows: &[R]) -> Result<(), TableFault>
    ensures { (past : R) → MatchResult result (λ _. CurvesFit (curve_in R.curve rows.now past) (length rows.now)) (λ e. NoCurve (curve_in R.curve rows.now past) (length rows.now) e) }
{
    for (row, r) in rows.iter().enumerate() {
        r.curve()
            .check()
            .map_err(|fault| TableFault::Curve { row, fault })?;
    }
    Ok(())
}

// Whether every row has a curve. It is said of the rows with any other past the last, which nothing depends on.
// Thin over a private function, so that an edit that must fail is refused for the fact and not for its answers' file.
pub fn curves_fit<R: Curved>(rows: &[R]) -> Result<(), TableFault>
    ensures { (past : R) → MatchResult result (λ _. CurvesFit (curve_in R.curve rows.now past) (length rows.now)) (λ e. NoCurve (curve_in R.curve rows.now past) (length rows.now) e) }
{
    first_uncurved(rows)
}
