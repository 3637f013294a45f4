// Netlist texts, good and bad, corner by corner: one line for each, with what loading it answers.
#![tactic(auto)]

use anyhow::anyhow;
use large::{at_limits, long_text};
use netlist::Netlist;
use refusal::Refusal;
use table::{BAD_BYTES, BAD_FORMS, BAD_SIGNALS, BAD_WHOLES, Example, GOOD, WRONG};

mod large;
mod table;

// Prints the numbers of inputs, outputs and gates of what is in.
fn print_counts(rt: &HostRuntime, label: &str, netlist: &Netlist) -> anyhow::Result<()> {
    if let Some(circuit) = netlist.circuit() {
        println!(rt;
            "{label}: {} {} {}",
            circuit.inputs(),
            circuit.outputs().len(),
            circuit.gates().len()
        )?;
    }
    Ok(())
}

// Loads a text into a new netlist and prints the answer.
fn show(rt: &HostRuntime, label: &str, text: &[u8]) -> anyhow::Result<()> {
    let mut netlist = Netlist::new(rt.alloc())?;
    if let Err(fault) = netlist.load(text) {
        println!(rt; "{label}: {}", Refusal::from(fault))?;
    }
    print_counts(rt, label, &netlist)
}

fn show_each(rt: &HostRuntime, examples: &[Example]) -> anyhow::Result<()> {
    for (label, text) in examples {
        show(rt, label, text)?;
    }
    Ok(())
}

// What is wrong with a text, in words.
fn tell(rt: &HostRuntime, text: &[u8]) -> anyhow::Result<()> {
    let mut netlist = Netlist::new(rt.alloc())?;
    if let Err(fault) = netlist.load(text) {
        println!(rt; "{fault}")?;
    }
    Ok(())
}

// A second load is not due, and leaves what is in.
fn twice(rt: &HostRuntime) -> anyhow::Result<()> {
    let mut netlist = Netlist::new(rt.alloc())?;
    let text = b"INPUT(a)\nOUTPUT(y)\ny = NOT(a)\n";
    netlist.load(text).map_err(|_| anyhow!("the first load"))?;
    if let Err(fault) = netlist.load(b"") {
        println!(rt; "second load: {}: {fault}", Refusal::from(fault))?;
    }
    print_counts(rt, "still in", &netlist)
}

fn main(rt: HostRuntime) -> anyhow::Result<()> {
    show_each(&rt, &GOOD)?;
    show_each(&rt, &BAD_BYTES)?;
    show_each(&rt, &BAD_FORMS)?;
    show_each(&rt, &BAD_SIGNALS)?;
    show_each(&rt, &BAD_WHOLES)?;
    at_limits(&rt)?;
    long_text(&rt)?;
    twice(&rt)?;
    for text in &WRONG {
        tell(&rt, text)?;
    }
    Ok(())
}
