// The tables' own memory, for programs that keep it.
ghost use Rattle.std.specs.Prelude.{◌≡◌};
ghost use Rattle.vendor.specs.Cells.{seven, owned, zeros};
ghost use Rattle.vendor.specs.Files.{answer, tables_after};
ghost use Rattle.vendor.specs.Format.{Answered, WordsMean};

use crate::faults::FileFault;
use crate::rows::Shape;
use crate::tables::{Counts, Tables, read};

// Cells of seven tables: `ROW_CELLS` of rows by periods, `LINE_CELLS` of lines by periods, and `PERIODS` of periods.
#[derive(Drop)]
pub struct Cells<const ROW_CELLS: usize, const LINE_CELLS: usize, const PERIODS: usize> {
    pub marks: [u8; ROW_CELLS],
    pub outputs: [i32; ROW_CELLS],
    pub system: [i32; PERIODS],
    pub upper: [i32; LINE_CELLS],
    pub lower: [i32; LINE_CELLS],
    pub rise: [i32; ROW_CELLS],
    pub fall: [i32; ROW_CELLS],
}

// A file read into seven slices. Tried: where `read` below makes the struct itself, over `&mut self.marks` and so on or by `as_mut_slice`, no proof
// was found of what the arrays end as, since their lengths are parameters; a call that takes each as a slice tells it.
fn read_into(
    file: &[u8],
    shape: &Shape,
    marks: &mut [u8],
    outputs: &mut [i32],
    system: &mut [i32],
    upper: &mut [i32],
    lower: &mut [i32],
    rise: &mut [i32],
    fall: &mut [i32],
) -> Result<Counts, FileFault>
    ensures meaning { Answered shape.now file.now (seven marks.old outputs.old system.old upper.old lower.old rise.old fall.old) result (seven marks.new outputs.new system.new upper.new lower.new rise.new fall.new) }
    ensures words { WordsMean }
    ensures answer { result ≡ answer shape.now file.now (seven marks.old outputs.old system.old upper.old lower.old rise.old fall.old) }
    ensures held { seven marks.new outputs.new system.new upper.new lower.new rise.new fall.new ≡ tables_after shape.now file.now (seven marks.old outputs.old system.old upper.old lower.old rise.old fall.old) }
{
    let mut tables = Tables {
        marks,
        outputs,
        system,
        upper,
        lower,
        rise,
        fall,
    };
    read(file, shape, &mut tables)
}

impl<const ROW_CELLS: usize, const LINE_CELLS: usize, const PERIODS: usize> Cells<
    ROW_CELLS,
    LINE_CELLS,
    PERIODS,
> {
    // Zero in every cell.
    pub fn empty() -> Self
        ensures { owned result ≡ zeros ROW_CELLS LINE_CELLS PERIODS }
    {
        Cells {
            marks: [0; ROW_CELLS],
            outputs: [0; ROW_CELLS],
            system: [0; PERIODS],
            upper: [0; LINE_CELLS],
            lower: [0; LINE_CELLS],
            rise: [0; ROW_CELLS],
            fall: [0; ROW_CELLS],
        }
    }

    // Reads a file into the cells. A refused file leaves them as they were.
    pub fn read(&mut self, file: &[u8], shape: &Shape) -> Result<Counts, FileFault>
        ensures meaning { Answered shape.now file.now (owned self.old) result (owned self.new) }
        ensures words { WordsMean }
        ensures answer { result ≡ answer shape.now file.now (owned self.old) }
        ensures held { owned self.new ≡ tables_after shape.now file.now (owned self.old) }
    {
        read_into(
            file,
            shape,
            &mut self.marks,
            &mut self.outputs,
            &mut self.system,
            &mut self.upper,
            &mut self.lower,
            &mut self.rise,
            &mut self.fall,
        )
    }
}
