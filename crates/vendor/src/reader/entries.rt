// Rows with their numbers, each asked whether it may follow the one before.
ghost use Rattle.std.specs.Prelude.{◌≡◌, ◌&&◌, ◌||◌, ◌==◌, nat_lt};
ghost use Rattle.vendor.specs.Rows.{follows, place_of};
ghost use Rattle.vendor.specs.Walks.{entry_answer, last_after, rows_ahead, tail};

use crate::faults::RowFault;
use crate::reader::Reader;
use crate::rows::{Entry, Group, Last, Shape};

impl Last {
    // Within a letter: first the index, then the period, rising.
    fn rises_to(&self, index: usize, period: usize) -> bool
        ensures { result ≡ (nat_lt self.now.index index || (self.now.index == index && nat_lt self.now.period period)) }
    {
        (self.index, self.period) < (index, period)
    }
}

impl Reader<'_> {
    // Whether the row may come next: letters in the order R, S, L, G, and rising within a letter.
    // The state is matched in place with the row, and no order of letters is derived: a rule of the project.
    fn may_follow(&self, entry: &Entry) -> bool
        ensures { result ≡ follows self.now.last (place_of entry.now) }
    {
        let Some(last) = self.last else {
            return true;
        };
        match (last.group, *entry) {
            (Group::Outputs, Entry::Output { row, period, .. }) => last.rises_to(row, period),
            (Group::System, Entry::System { period, .. }) => last.rises_to(0, period),
            (Group::Lines, Entry::Line { line, period, .. }) => last.rises_to(line, period),
            (Group::Ramps, Entry::Ramp { row, period, .. }) => last.rises_to(row, period),
            (Group::Outputs, _) => true,
            (Group::System, Entry::Line { .. } | Entry::Ramp { .. }) => true,
            (Group::Lines, Entry::Ramp { .. }) => true,
            _ => false,
        }
    }

    // The next row's numbers, judged beside the last row.
    #[tactic(auto, using(crate::proofs::Questions::cut_answer, crate::proofs::Questions::number_answer, crate::proofs::Questions::next_answer))]
    fn judged(&mut self, shape: &Shape) -> Result<Option<Entry>, RowFault>
        ensures answer { result ≡ entry_answer shape.now self.old.last (rows_ahead self.old) }
        ensures rows { rows_ahead self.new ≡ tail (rows_ahead self.old) }
        ensures last { self.new.last ≡ self.old.last }
    {
        let Some(row) = self.next_row()? else {
            return Ok(None);
        };
        let entry = row.numbers(shape)?;
        if self.may_follow(&entry) {
            Ok(Some(entry))
        } else {
            Err(RowFault::OutOfOrder)
        }
    }

    // The numbers of the next row, or `None` past the last.
    pub fn next_entry(&mut self, shape: &Shape) -> Result<Option<Entry>, RowFault>
        ensures answer { result ≡ entry_answer shape.now self.old.last (rows_ahead self.old) }
        ensures rows { rows_ahead self.new ≡ tail (rows_ahead self.old) }
        ensures last { self.new.last ≡ last_after self.old.last result }
    {
        let next = self.judged(shape)?;
        if let Some(entry) = &next {
            self.last = Some(Last::from(entry));
        }
        Ok(next)
    }
}
