// The fields of a row, which stand between semicolons.
ghost use Rattle.std.specs.Prelude.{◌≡◌, ℕ, ◌<◌, [], ◌∷◌, ◌++◌, length, Some, MatchOption, MatchResult, ◌≢◌, slice_index};
ghost use Rattle.std.specs.Iterator.{item_count};
ghost use Rattle.vendor.specs.Pieces.{pieces};
ghost use Rattle.vendor.specs.declared.faults.RowFault.TheVariants.{FieldCount};
ghost use Rattle.vendor.specs.Rows.{fields_of, first_no};
ghost use Rattle.vendor.specs.Walks.{fields_ahead, GivesField, letter_questions};

use crate::faults::RowFault;
use crate::rows::Row;

const SEMICOLON: u8 = b';';

// The first place of `byte`, or `None` where it does not stand.
pub(super) fn find(bytes: &[u8], byte: u8) -> Option<usize>
    ensures { MatchOption result ((k : ℕ) → k < length bytes.now → slice_index bytes.now k ≢ byte) (λ n. (n < length bytes.now) × (slice_index bytes.now n ≡ byte) × ((k : ℕ) → k < n → slice_index bytes.now k ≢ byte)) }
{
    bytes.iter().position(|b| *b == byte)
}

// What is left of a row: `None` past its last field. An iterator of its own: the type of std's `split` names its closure, which `field` and `kind`
// would have to take as a parameter.
#[derive(Drop)]
struct Fields<'a> {
    rest: Option<&'a [u8]>,
}

impl<'a> Iterator for Fields<'a> {
    type Item = &'a [u8];

    ghost next_gives = { GivesField };

    ghost remaining = { item_count fields_ahead };

    #[tactic(auto, using(crate::proofs::Cuts::last_left, crate::proofs::Cuts::next_left))]
    fn next(&mut self) -> Option<&'a [u8]> {
        let row = self.rest.take()?;
        let Some(n) = find(row, SEMICOLON) else {
            return Some(row);
        };
        self.rest = Some(&row[n + 1..]);
        Some(&row[..n])
    }
}

impl<'a> Fields<'a> {
    // The next field, or the fault of a row that has none left.
    fn field(&mut self) -> Result<&'a [u8], RowFault>
        ensures { MatchResult result (λ f. fields_ahead self.old ≡ f.now ∷ fields_ahead self.new) (λ e. (fields_ahead self.old ≡ []) × (e ≡ FieldCount)) }
    {
        self.next().ok_or(RowFault::FieldCount)
    }

    // The fields of a row with this letter, taken one at a time.
    fn kind(&mut self, letter: u8) -> Result<Row<'a>, RowFault>
        ensures { MatchResult result (λ row. (letter ∷ []) ∷ fields_ahead self.old ≡ fields_of row ++ fields_ahead self.new) (λ e. first_no (letter_questions ((letter ∷ []) ∷ fields_ahead self.old)) ≡ Some e) }
    {
        match char::from(letter) {
            'R' => Ok(Row::Output {
                row: self.field()?,
                period: self.field()?,
                mark: self.field()?,
                output: self.field()?,
            }),
            'S' => Ok(Row::System {
                period: self.field()?,
                price: self.field()?,
            }),
            'L' => Ok(Row::Line {
                line: self.field()?,
                period: self.field()?,
                upper: self.field()?,
                lower: self.field()?,
            }),
            'G' => Ok(Row::Ramp {
                row: self.field()?,
                period: self.field()?,
                rise: self.field()?,
                fall: self.field()?,
            }),
            _ => Err(RowFault::UnknownLetter),
        }
    }
}

// A row as one of the four kinds.
pub(super) fn cut(row: &[u8]) -> Result<Row<'_>, RowFault>
    ensures { MatchResult result (λ r. fields_of r ≡ pieces 59 row.now) (λ e. first_no (letter_questions (pieces 59 row.now)) ≡ Some e) }
{
    let mut fields = Fields { rest: Some(row) };
    let Some([letter]) = fields.next() else {
        return Err(RowFault::UnknownLetter);
    };
    let row = fields.kind(*letter)?;
    match fields.next() {
        Some(_) => Err(RowFault::FieldCount),
        None => Ok(row),
    }
}
