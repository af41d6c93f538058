// What every no tells: the number of its question, with the place (a row, a line or a node) and the period that it names, 0 where it names none.
// Place and period are told as numbers, 0 where there is none, as solvers read them.
ghost use Rattle.std.specs.Prelude.{◌≡◌, ℕ};

pub trait Fault {
    ghost number: { Self → ℕ };

    ghost place: { Self → ℕ };

    ghost period: { Self → ℕ };

    fn number(&self) -> u8
        ensures { result ≡ number self.now };

    fn place(&self) -> usize
        ensures { result ≡ place self.now };

    fn period(&self) -> usize
        ensures { result ≡ period self.now };
}
