// Compares the word with the bit: 32 tests of a circuit of 256 gates, in one walk with the word and in 32 walks with the bit.
// By itself the program says whether both find the same; with any argument it measures and prints how long a test takes.
#![tactic(auto)]

mod network;
mod patterns;

use circuit::Circuit;
use evaluate::{Forced, evaluate};
use inline_list::InlineList;
use network::network;
use patterns::{TESTS, bits, words};
use signal_value::{Logic, Word};
use std::time::Instant;
use std::{env, io};

const ROUNDS: u32 = 1000;

// The values of the gates, with none forced.
fn values<L: Logic>(circuit: &Circuit, inputs: &[L]) -> InlineList<L, 256> {
    let unforced: [Forced<L>; 0] = [];
    evaluate(circuit, inputs, &unforced)
}

// How many gates have another value in the test's lane than by the bit.
fn differences(circuit: &Circuit, all: &[Word], test: u32) -> usize {
    let own = values(circuit, &bits(test, 0));
    let pairs = all.iter().zip(own.as_slice());
    pairs
        .filter(|(word, bit)| (word.0.wrapping_shr(test) % 2 == 1) != **bit)
        .count()
}

fn compare(rt: &HostRuntime, circuit: &Circuit) -> io::Result<()> {
    let all = values(circuit, &words(0));
    let all = all.as_slice();
    let found = (0..TESTS).fold(0usize, |found, test| {
        found.saturating_add(differences(circuit, all, test))
    });
    println!(rt; "256 gates, 32 tests: {found} differences")
}

fn measure(rt: &HostRuntime, circuit: &Circuit) -> io::Result<()> {
    let mut kept = 0u32;
    let start = Instant::now(rt)?;
    for round in 0..ROUNDS {
        let all = values(circuit, &words(round));
        kept ^= all.as_slice().last().map_or(0, |word| word.0);
    }
    let word = start.elapsed(rt)?.as_nanos() / 32_000;
    let start = Instant::now(rt)?;
    for round in 0..ROUNDS {
        for test in 0..TESTS {
            let own = values(circuit, &bits(test, round));
            kept ^= own.as_slice().last().map_or(0, |bit| u32::from(*bit));
        }
    }
    let bit = start.elapsed(rt)?.as_nanos() / 32_000;
    println!(rt; "nanoseconds for a test: {word} with the word, {bit} with the bit ({kept})")
}

fn main(rt: HostRuntime) -> io::Result<()> {
    let circuit = network(rt.alloc())?;
    let mut args = env::args(&rt)?;
    let _ = args.next();
    if args.next().is_some() {
        return measure(&rt, &circuit);
    }
    compare(&rt, &circuit)
}
