// The laws of the formula.
ghost use Rattle.cnf_theory.specs.FormulaLaws.{SaysExplains, CountsTo, WithinVariables, NineAtMost};

pub fn formula_says_explains()
    ensures { SaysExplains }
{}

pub fn counter_literal_bounds_marks()
    ensures { CountsTo }
{}

pub fn literals_name_variables()
    ensures { WithinVariables }
{}

pub fn clauses_have_nine_at_most()
    ensures { NineAtMost }
{}
