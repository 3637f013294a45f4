// The formula: its clauses handed to a sink in order, and its sizes.
ghost use Rattle.std.specs.Prelude.{◌≡◌, suc, ◌+◌, ◌*◌, ◌≤◌, min};
ghost use Rattle.circuit.specs.Held.{circuit_of};
ghost use Rattle.testlog.specs.Held.{tests_of};
ghost use Rattle.cnf_theory.specs.Literals.{integers};
ghost use Rattle.cnf_theory.specs.Variables.{base, variables};
ghost use Rattle.cnf_theory.specs.Formula.{tests_clauses, formula};
ghost use Rattle.cnf.specs.Tallied.{TallyOf};

use crate::bound::Bound;
use crate::counter::Counter;
use crate::gates::gates_clause_count;
use crate::problem::Problem;
use crate::sink::ClauseSink;
use crate::tally::Tally;
use crate::tests::write_test;
use crate::variables::TestVariables;
use circuit::Circuit;

// The marks and counts of so many gates, and the variables of so many tests.
fn marks_and_tests(gates: usize, inputs: usize, bound: Bound, tests: usize) -> usize
    requires { (gates ≤ 256) × (inputs ≤ 64) × (tests ≤ 32) }
    ensures value { result ≡ gates * suc (suc bound.value) + tests * (inputs + gates * 3) }
    ensures small { result ≤ 90000 }
{
    gates * (bound.value() + 2) + tests * (inputs + gates * 3)
}

// The variables before those of a test, counted from 0; there are at most 32 tests. They are the same whatever the tests are.
pub fn variables_before(circuit: &Circuit, bound: Bound, test: usize) -> usize
    ensures value { result ≡ base (circuit_of circuit.now) bound.value (min test 32) }
    ensures small { result ≤ 90000 }
{
    let gates = circuit.gates().len();
    marks_and_tests(gates, circuit.inputs(), bound, test.min(32))
}

impl Problem<'_> {
    // The variables before those of a test.
    fn test_base(&self, test: usize) -> usize
        requires { test ≤ 32 }
        ensures value { result ≡ base (circuit_of self.now.circuit.now) self.now.bound.value test }
        ensures small { result ≤ 90000 }
    {
        self.variables_before(test)
    }

    // How many variables the formula has.
    pub fn variable_count(&self) -> usize
        ensures { result ≡ variables (circuit_of self.now.circuit.now) (tests_of self.now.tests.now) self.now.bound.value }
    {
        self.test_base(self.tests.len())
    }

    // The variables before those of a test, counted from 0; there are at most 32 tests.
    pub fn variables_before(&self, test: usize) -> usize
        ensures value { result ≡ base (circuit_of self.now.circuit.now) self.now.bound.value (min test 32) }
        ensures small { result ≤ 90000 }
    {
        variables_before(self.circuit, self.bound, test)
    }

    // The tests, each with its number.
    fn write_tests<K: ClauseSink>(&self, sink: &mut K)
        requires ready { K.ClauseSink.ready sink.old }
        ensures ready { K.ClauseSink.ready sink.new }
        ensures took { K.ClauseSink.took sink.old (integers (tests_clauses (circuit_of self.now.circuit.now) self.now.bound.value 0 (tests_of self.now.tests.now))) sink.new }
    {
        let gates = gates_clause_count(self.circuit.gates());
        for (t, test) in self.tests.tests().iter().enumerate() {
            let variables = TestVariables {
                base: self.test_base(t),
                inputs: self.circuit.inputs(),
            };
            write_test(sink, variables, self.circuit, gates, test);
        }
    }

    // Hands the clauses of the formula to the sink, in order.
    pub fn write_formula<K: ClauseSink>(&self, sink: &mut K)
        requires ready { K.ClauseSink.ready sink.old }
        ensures ready { K.ClauseSink.ready sink.new }
        ensures took { K.ClauseSink.took sink.old (integers (formula (circuit_of self.now.circuit.now) (tests_of self.now.tests.now) self.now.bound.value)) sink.new }
    {
        let counter = Counter {
            gates: self.circuit.gates().len(),
            bound: self.bound,
        };
        counter.write(sink);
        counter.write_limit(sink);
        self.write_tests(sink);
    }

    // How many clauses the formula has, its longest clause, and their summed prices.
    pub fn formula_sizes(&self) -> Tally
        ensures { TallyOf (formula (circuit_of self.now.circuit.now) (tests_of self.now.tests.now) self.now.bound.value) result }
    {
        let mut tally = Tally::default();
        self.write_formula(&mut tally);
        tally
    }
}
