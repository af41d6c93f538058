// A walk over a file that stays where it is: row by row, and in a row field by field.
mod entries;
mod fields;
mod walk;

ghost use Rattle.std.specs.Prelude.{◌≤◌, length};

use crate::rows::Last;

// `at` is where the next row begins; `last` is the last row read, if any was.
#[derive(Drop)]
pub struct Reader<'a> {
    file: &'a [u8],
    at: usize,
    last: Option<Last>,
    ghost inside: { at ≤ length file.now },
}
