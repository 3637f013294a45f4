// The laws of explaining.
ghost use Rattle.diagnosis.specs.ExplainingLaws.{GateValuesConsistent, BringsOutMeasured, SearchDecides, SupersetsExplain, TestsNeedOwnValues};
ghost use Rattle.diagnosis.specs.Readings.{ReadingsBringOut};

pub fn gate_values_are_consistent()
    ensures { GateValuesConsistent }
{}

pub fn brings_out_what_was_measured()
    ensures { BringsOutMeasured }
{}

pub fn search_decides()
    ensures { SearchDecides }
{}

pub fn supersets_explain()
    ensures { SupersetsExplain }
{}

pub fn tests_need_own_values()
    ensures { TestsNeedOwnValues }
{}

pub fn readings_bring_out()
    ensures { ReadingsBringOut }
{}
