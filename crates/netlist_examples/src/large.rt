// Texts at the limits, made up line by line.
use crate::{show, tell};
use std::alloc::{AllocError, Global};

// A netlist of so many inputs, gates and OUTPUT lines.
fn sized(heap: Global, inputs: usize, gates: usize, outputs: usize) -> Result<String, AllocError> {
    let mut text = String::new(heap);
    for i in 0..inputs {
        text.push_str(format!(in heap; "INPUT(i{i})\n")?.as_str())?;
    }
    for g in 0..gates {
        text.push_str(format!(in heap; "g{g} = NAND(i0, i0)\n")?.as_str())?;
    }
    for o in 0..outputs {
        text.push_str(format!(in heap; "OUTPUT(g{o})\n")?.as_str())?;
    }
    Ok(text)
}

pub fn at_limits(rt: &HostRuntime) -> anyhow::Result<()> {
    let heap = rt.alloc();
    let all = sized(heap, 64, 256, 64)?;
    show(rt, "as many as may be", all.as_bytes())?;
    let inputs = sized(heap, 65, 1, 1)?;
    show(rt, "65 inputs", inputs.as_bytes())?;
    let gates = sized(heap, 1, 257, 1)?;
    show(rt, "257 gates", gates.as_bytes())?;
    let outputs = sized(heap, 1, 65, 65)?;
    show(rt, "65 outputs", outputs.as_bytes())?;
    tell(rt, outputs.as_bytes())
}

// A small netlist with a comment that makes the text so long.
fn padded(heap: Global, len: usize) -> Result<String, AllocError> {
    let mut text = String::from_str(heap, "INPUT(a)\nOUTPUT(y)\ny = NOT(a)\n#")?;
    for _ in text.len()..len {
        text.push('x')?;
    }
    Ok(text)
}

pub fn long_text(rt: &HostRuntime) -> anyhow::Result<()> {
    let longest = padded(rt.alloc(), 60000)?;
    show(rt, "60000 bytes", longest.as_bytes())?;
    let longer = padded(rt.alloc(), 60001)?;
    show(rt, "60001 bytes", longer.as_bytes())?;
    tell(rt, longer.as_bytes())
}
