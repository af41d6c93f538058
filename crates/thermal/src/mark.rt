// The mark of a period.
ghost use Rattle.thermal.specs.Marks.{MarkTold};

use kinds::{RUNNING, Rule};

// As RUNNING is the mark of a period in which a row runs.
const STOPPED: u8 = 0;

#[derive(Clone, Copy, PartialEq, Eq, Debug)]
pub enum Mark {
    Stopped,
    Running,
}

// One of the two numbers, as a plan tells it.
impl TryFrom<u8> for Mark {
    type Error = Rule;

    ghost try_from_gives = { MarkTold };

    fn try_from(mark: u8) -> Result<Mark, Rule> {
        match mark {
            STOPPED => Ok(Mark::Stopped),
            RUNNING => Ok(Mark::Running),
            _ => Err(Rule::Mark),
        }
    }
}
