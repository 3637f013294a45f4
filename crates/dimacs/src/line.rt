// Lines of the formula's text.
ghost use Rattle.std.specs.Prelude.{◌≡◌};
ghost use Rattle.std.specs.Option.{option_map};
ghost use Rattle.std.specs.List.{slice_get};
ghost use Rattle.inline_list.specs.Listed.{listed};
ghost use Rattle.circuit.specs.Held.{circuit_of};
ghost use Rattle.testlog.specs.Held.{tests_of};
ghost use Rattle.cnf_theory.specs.Literals.{integers};
ghost use Rattle.cnf_theory.specs.Formula.{formula};
ghost use Rattle.cnf_theory.specs.Dimacs.{lines};
ghost use Rattle.dimacs.specs.LineCall.{line_at, told, left};

use crate::pick::Pick;
use crate::text::{LONGEST, Text, clause_line, head_line};
use cnf::Problem;
use inline_list::InlineList;
use refusal::Refusal;

// Clause j of the formula, counted from 0, if there is one.
fn clause_at(problem: &Problem, j: usize) -> Option<InlineList<i32, 9>>
    ensures { option_map listed result ≡ slice_get (integers (formula (circuit_of problem.now.circuit.now) (tests_of problem.now.tests.now) problem.now.bound.value)) j }
{
    let mut pick = Pick::Skipping(j);
    problem.write_formula(&mut pick);
    match pick {
        Pick::Skipping(_) => None,
        Pick::Found(literals) => Some(literals),
    }
}

// The line of this number, counted from 1, if there is one.
fn line_text(problem: &Problem, line: usize) -> Option<Text>
    ensures { option_map (λ t. t.bytes) result ≡ line_at (lines (circuit_of problem.now.circuit.now) (tests_of problem.now.tests.now) problem.now.bound.value) line }
{
    match line {
        0 => None,
        1 => {
            let sizes = problem.formula_sizes();
            Some(head_line(problem.variable_count(), sizes.count))
        }
        _ => {
            let clause = clause_at(problem, line - 2)?;
            Some(clause_line(&clause))
        }
    }
}

// The number of the refusal: there is no line of this number, or the buffer has no room for any line.
const NO_SUCH_LINE: usize = 19;

// Writes the line of this number, counted from 1, into the buffer, and tells its length.
pub fn formula_line(problem: &Problem, line: usize, buffer: &mut [u8]) -> Result<usize, Refusal>
    ensures answer { result ≡ told buffer.old (line_at (lines (circuit_of problem.now.circuit.now) (tests_of problem.now.tests.now) problem.now.bound.value) line) }
    ensures after { buffer.new ≡ left buffer.old (line_at (lines (circuit_of problem.now.circuit.now) (tests_of problem.now.tests.now) problem.now.bound.value) line) }
{
    if buffer.len() < LONGEST {
        return Err(Refusal::numbered(NO_SUCH_LINE));
    }
    let text = line_text(problem, line).ok_or(Refusal::numbered(NO_SUCH_LINE))?;
    let length = text.len();
    buffer[..length].copy_from_slice(text.as_str().as_bytes());
    Ok(length)
}
