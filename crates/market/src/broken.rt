// A rule that a row's schedule breaks, with the period in which it is broken, 0 where there is none; a fleet tells no place. The period is told as a
// number, as solvers read it, and is no Option.
// The rule is a number and no enum: anybody may write a fleet with rules of its own, and a list of them here would close it.
#[derive(Clone, Copy, PartialEq, Eq, Debug)]
pub struct Broken {
    pub rule: u8,
    pub period: usize,
}
