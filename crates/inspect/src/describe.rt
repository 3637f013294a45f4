// What a netlist has: inputs, outputs, gates, and gates of each kind.
use circuit::{Circuit, Kind};
use std::io;

const KINDS: [(&str, Kind); 7] = [
    ("AND", Kind::And),
    ("OR", Kind::Or),
    ("NAND", Kind::Nand),
    ("NOR", Kind::Nor),
    ("XOR", Kind::Xor),
    ("XNOR", Kind::Xnor),
    ("NOT", Kind::Not),
];

fn count(circuit: &Circuit, kind: Kind) -> usize {
    circuit
        .gates()
        .iter()
        .filter(|gate| gate.kind == kind)
        .count()
}

pub fn describe(rt: &HostRuntime, circuit: &Circuit) -> io::Result<()> {
    println!(rt; "inputs {}", circuit.inputs())?;
    println!(rt; "outputs {}", circuit.outputs().len())?;
    println!(rt; "gates {}", circuit.gates().len())?;
    for (word, kind) in &KINDS {
        println!(rt; "{word} {}", count(circuit, *kind))?;
    }
    Ok(())
}
