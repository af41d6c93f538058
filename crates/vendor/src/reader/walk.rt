// The rows of a file, which end in byte 10.
ghost use Rattle.std.specs.Prelude.{◌≡◌, ◌≤◌, None, drop, length};
ghost use Rattle.vendor.specs.Files.{lines};
ghost use Rattle.vendor.specs.Walks.{Kept, rows_ahead, tail, HandedOn};

use crate::faults::RowFault;
use crate::reader::Reader;
use crate::reader::fields::{cut, find};
use crate::rows::Row;

const ROW_END: u8 = b'\n';

impl<'a> Reader<'a> {
    pub fn new(file: &'a [u8]) -> Reader<'a>
        ensures rows { rows_ahead result ≡ lines file.now }
        ensures last { result.last ≡ None }
    {
        Reader {
            file,
            at: 0,
            last: None,
        }
    }

    // The row that begins here, or `None` past the last, and where the next one begins.
    #[tactic(auto, using(crate::proofs::Walking::rows_on))]
    fn row_here(&self) -> (Result<Option<Row<'a>>, RowFault>, usize)
        ensures answer { HandedOn (rows_ahead self.now) result.0 }
        ensures within { result.1 ≤ length self.now.file.now }
        ensures rows { lines (drop result.1 self.now.file.now) ≡ tail (rows_ahead self.now) }
    {
        let rest = &self.file[self.at..];
        if rest.is_empty() {
            return (Ok(None), self.at);
        }
        let Some(n) = find(rest, ROW_END) else {
            return (Err(RowFault::Unended), self.file.len());
        };
        (cut(&rest[..n]).map(Some), self.at + (n + 1))
    }

    // The next row as one of the four kinds, or `None` past the last; a faulty row is passed too.
    pub fn next_row(&mut self) -> Result<Option<Row<'a>>, RowFault>
        ensures answer { HandedOn (rows_ahead self.old) result }
        ensures rows { rows_ahead self.new ≡ tail (rows_ahead self.old) }
        ensures kept { Kept self.old self.new }
    {
        let (row, next) = self.row_here();
        self.at = next;
        row
    }
}
