//! A benchmark of the analysis: makes a system of constraints, closes and solves it, and prints counts.
//!
//! The words are `KIND N GOAL`. KIND is `chain`, `reversed`, `ring`, `fan`, `wide` or `random`, N its size (at most 1,000,000), and
//! GOAL is `closure`, `solve` or `show`. What does not fit, a failed write and want of memory end it with status 1.
#![tactic(auto)]

mod calls;
mod counting;
mod failure;
mod fan;
mod making;
mod random;
#[cfg(test)]
mod tests;
mod wide;
mod words;

use counting::{Counts, count};
use failure::Failure;
use making::make;
use std::alloc::Global;
use std::env;
use std::process::ExitCode;
use words::meaning;

/// The words after the program's name.
fn words_of(rt: &HostRuntime, alloc: Global) -> Result<Vec<String>, Failure> {
    let mut words = Vec::new(alloc);
    match env::args(rt) {
        Ok(args) => {
            for word in args.skip(1) {
                words.push(word)?;
            }
        }
        Err(_) => return Err(Failure::Words),
    }
    Ok(words)
}

/// Makes the system that the words ask for, and counts what is found of it.
fn run(alloc: Global, words: &[String]) -> Result<Counts, Failure> {
    let wanted = meaning(words).ok_or(Failure::Words)?;
    let graph = make(alloc, wanted.kind, wanted.size)?;
    count(alloc, &graph, wanted.goal)
}

/// Prints the counts, a line each.
fn print(rt: &impl Print, counts: &Counts) -> Result<(), Failure> {
    println!(rt; "constraints {}", counts.constraints)?;
    println!(rt; "variables {}", counts.variables)?;
    println!(rt; "pairs {}", counts.pairs)?;
    println!(rt; "exceeded {}", counts.exceeded)?;
    println!(rt; "steps {}", counts.steps)?;
    Ok(())
}

/// Counts what the words ask for and prints it.
fn answer(rt: &HostRuntime) -> Result<(), Failure> {
    let alloc = rt.alloc();
    let words = words_of(rt, alloc)?;
    let counts = run(alloc, &words)?;
    print(rt, &counts)
}

fn main(rt: HostRuntime) -> ExitCode {
    match answer(&rt) {
        Ok(()) => ExitCode::SUCCESS,
        Err(_) => ExitCode::FAILURE,
    }
}
