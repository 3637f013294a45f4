// A circuit with as many gates as there may be, each on the gate before it and on one further back.
use crate::patterns::INPUTS;
use circuit::{Circuit, Gate, Kind, Operands, Signal};
use std::alloc::{AllocError, Global};

fn kind(g: usize) -> Kind {
    match g % 6 {
        0 => Kind::And,
        1 => Kind::Xor,
        2 => Kind::Nor,
        3 => Kind::Or,
        4 => Kind::Nand,
        _ => Kind::Xnor,
    }
}

// The gate that comes after so many others.
fn gate_after(g: usize) -> Gate {
    let before = if g == 0 {
        Signal::Input(INPUTS)
    } else {
        Signal::Gate(g)
    };
    let further = if g < INPUTS {
        Signal::Input(g + 1)
    } else {
        Signal::Gate(g - INPUTS + 1)
    };
    let mut operands = Operands::none(before);
    let _ = operands.push(before);
    let _ = operands.push(further);
    Gate {
        kind: kind(g),
        operands,
    }
}

pub fn network(heap: Global) -> Result<Circuit, AllocError> {
    let mut circuit = Circuit::new(heap)?;
    for _ in 0..INPUTS {
        let _ = circuit.add_input();
    }
    for g in 0..Circuit::MOST_GATES {
        let _ = circuit.add_gate(gate_after(g));
    }
    let _ = circuit.add_output(Signal::Gate(Circuit::MOST_GATES));
    Ok(circuit)
}
