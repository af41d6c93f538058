// What a file's plan and its prices are answered with.
use market::Refusal;
use measures::Grains;

#[derive(Clone, Copy)]
pub struct Answers {
    pub plan: Result<Grains, Refusal>,
    pub prices: Result<Grains, Refusal>,
}
