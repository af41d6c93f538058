// Reads one vendor's file from standard input for the specimen's day, and prints how its plan and its prices are answered.
#![tactic(auto)]

use arrayvec::ArrayVec;
use market::Refusal;
use measures::Grains;
use specimen_day::{MOST_BYTES, answer};
use std::io;
use std::io::Read;

// One byte more than is taken, so that a longer input shows. What is read is held in place: a program for so small a file may not run out of memory.
const READ_BYTES: usize = MOST_BYTES + 1;

// An amount in grains, or a refusal.
fn print_answer(rt: &impl Print, offer: &str, answer: Result<Grains, Refusal>) -> io::Result<()> {
    match answer {
        Ok(amount) => println!(rt; "{offer};{amount}"),
        Err(refusal) => println!(rt; "{offer};{refusal}"),
    }
}

fn main(rt: HostRuntime) -> io::Result<()> {
    let mut file = ArrayVec::<u8, READ_BYTES>::new();
    io::copy(&mut rt.stdin().take(READ_BYTES as u64), &mut file)?;
    match answer(file.as_slice()) {
        Ok(answers) => {
            print_answer(&rt, "plan", answers.plan)?;
            print_answer(&rt, "prices", answers.prices)
        }
        Err(fault) => println!(rt; "file;{fault}"),
    }
}
