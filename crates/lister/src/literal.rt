// Literals, as they are assumed and handed over.
ghost use Rattle.std.specs.Prelude.{◌≡◌, ◌≤◌};
ghost use Rattle.cnf_theory.specs.Literals.{integer, signed};

use cnf::Variable;

// The literal that is true where the variable has this value.
pub(crate) fn literal(variable: usize, value: bool) -> i32
    requires { (1 ≤ variable) × (variable ≤ 100000) }
    ensures { result ≡ integer (signed value variable) }
{
    i32::from(Variable { number: variable }.with(value))
}
