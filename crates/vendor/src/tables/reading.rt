// A whole file: one pass asks every question of every row, and a second writes the tables.
ghost use Rattle.std.specs.Prelude.{◌≡◌, None, MatchResult};
ghost use Rattle.vendor.specs.Files.{lines, entries, fault_of, rows_answer, answer, Contents, contents, filled, tables_after, RightLengths};
ghost use Rattle.vendor.specs.Fills.{SamePlaces, Readable};
ghost use Rattle.vendor.specs.Format.{Answered, WordsMean};

use crate::faults::FileFault;
use crate::reader::Reader;
use crate::rows::Shape;
use crate::tables::{Counts, Tables};

// Rows are counted here, since only `check` names one. An iterator of reader and shape under `zip(1..)` was tried and left: it needs a struct and an
// impl more, and an invariant over the state of both. The shape goes along with the file: rows as they stand ask none, so a `Reader` holds none.
// The rows of a file without fault, counted by letter, or the fault of its first faulty row.
fn check(file: &[u8], shape: &Shape) -> Result<Counts, FileFault>
    ensures { result ≡ rows_answer shape.now file.now }
{
    let mut reader = Reader::new(file);
    let mut counts = Counts::default();
    let mut row = 1;
    while let Some(entry) = reader
        .next_entry(shape)
        .map_err(|fault| FileFault::Row { row, fault })?
    {
        counts.add(&entry);
        row += 1;
    }
    Ok(counts)
}

// The tables of a file without fault: what its rows tell, and zero in every other cell.
fn fill(file: &[u8], shape: &Shape, tables: &mut Tables)
    requires { (fault_of shape.now file.now ≡ None) × (RightLengths shape.now (contents tables.old)) }
    ensures held { contents tables.new ≡ filled shape.now (entries (lines file.now)) }
    ensures places { SamePlaces tables.old tables.new }
{
    tables.clear();
    let mut reader = Reader::new(file);
    while let Ok(Some(entry)) = reader.next_entry(shape) {
        tables.write(shape, &entry);
    }
}

// Whether the file can be read into the tables: its rows by letter, or its fault. Nothing is written.
#[tactic(auto, using(crate::proofs::Outcome::unfit_answer, crate::proofs::Outcome::unfit_after, crate::proofs::Outcome::fit_answer, crate::proofs::Outcome::means, crate::proofs::Outcome::words_mean))]
fn judge(file: &[u8], shape: &Shape, tables: &Tables) -> Result<Counts, FileFault>
    ensures meaning { (after : Contents) → after ≡ tables_after shape.now file.now (contents tables.now) → Answered shape.now file.now (contents tables.now) result after }
    ensures words { WordsMean }
    ensures answer { result ≡ answer shape.now file.now (contents tables.now) }
    ensures cases { MatchResult result (λ _. Readable shape.now file.now (contents tables.now)) (λ _. contents tables.now ≡ tables_after shape.now file.now (contents tables.now)) }
{
    if tables.fit(shape) {
        check(file, shape)
    } else {
        Err(FileFault::Whole)
    }
}

// Reads a file into the tables. A refused file leaves them as they were.
// `meaning` and `words` are the format's page; `answer` and `held` say it as two functions of file, shape and tables.
pub fn read(file: &[u8], shape: &Shape, tables: &mut Tables) -> Result<Counts, FileFault>
    ensures meaning { Answered shape.now file.now (contents tables.old) result (contents tables.new) }
    ensures words { WordsMean }
    ensures answer { result ≡ answer shape.now file.now (contents tables.old) }
    ensures held { contents tables.new ≡ tables_after shape.now file.now (contents tables.old) }
    ensures places { SamePlaces tables.old tables.new }
{
    let counts = judge(file, shape, tables)?;
    fill(file, shape, tables);
    Ok(counts)
}
