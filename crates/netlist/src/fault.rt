// Why a netlist text is refused.
ghost use Rattle.std.specs.Prelude.{◌≡◌};
ghost use Rattle.netlist.specs.declared.fault.LineFault.TheVariants as line_fault;
ghost use Rattle.netlist.specs.declared.fault.ReadFault.TheVariants as read_fault;

use inline_list::Full;
use scanner::ScanFault;
use thiserror::Error;

// What is wrong on a line.
#[derive(Clone, Copy, Debug, Error)]
pub enum LineFault {
    #[error("this byte may not stand in a line: letters, digits, _ and space may, and ( ) , =")]
    Byte(ScanFault),
    #[error("a line is INPUT(name), OUTPUT(name) or name = KIND(name, ...), with names of at most 16 bytes")]
    Form,
    #[error("this kind of gate does not take so many operands")]
    OperandCount,
    #[error("a signal of this name is defined already")]
    Redefined,
    #[error("an operand is not defined on an earlier line")]
    Undefined,
    #[error("there are at most 64 inputs, 64 outputs and 256 gates")]
    Full,
}

// What is wrong with a text. A line is told by its number.
#[derive(Clone, Copy, Debug, Error)]
pub enum ReadFault {
    #[error("a netlist is loaded already")]
    Loaded,
    #[error("a netlist has at most 60000 bytes")]
    Long,
    #[error("{1}")]
    Line(usize, LineFault),
    #[error("a netlist has at least one input, one output and one gate")]
    Lacking,
    #[error("an OUTPUT names a signal of the netlist, and each at most once")]
    Output(usize),
}

impl From<ScanFault> for LineFault {
    ghost from_gives = { λ e r. r ≡ line_fault.Byte e };

    fn from(fault: ScanFault) -> LineFault {
        LineFault::Byte(fault)
    }
}

impl From<Full> for LineFault {
    ghost from_gives = { λ e r. r ≡ line_fault.Full };

    fn from(_full: Full) -> LineFault {
        LineFault::Full
    }
}

// On the line of this number.
impl From<(usize, LineFault)> for ReadFault {
    ghost from_gives = { λ e r. r ≡ read_fault.Line e.0 e.1 };

    fn from(fault: (usize, LineFault)) -> ReadFault {
        ReadFault::Line(fault.0, fault.1)
    }
}
