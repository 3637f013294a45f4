// How tests are written as records and logs, and what becomes of tests held. The definitions are in specs/, and each law stands on a function here.
#![tactic(auto)]

ghost use Rattle.test_format.specs.Law.{RecordReadsBack, TakenIsWritten, LogIsCut, LogReadsBack, AmendsOne, StrikesLast, TestsStayFit};

// The record of any test is taken and gives that test: see the contract.
pub fn record_reads_back()
    ensures { RecordReadsBack }
{}

// Bytes that are taken are the record of the test they give, so no two records stand for one test.
pub fn taken_is_written()
    ensures { TakenIsWritten }
{}

// The pieces of a log, joined, are the log again, and each but the last is as long as its map requires.
pub fn log_is_cut()
    ensures { LogIsCut }
{}

// Records end to end are cut into the same records.
pub fn log_reads_back()
    ensures { LogReadsBack }
{}

// Amending changes one output of one test, and nothing else.
pub fn amends_one()
    ensures { AmendsOne }
{}

// Striking undoes the last record.
pub fn strikes_last()
    ensures { StrikesLast }
{}

// Tests of a circuit stay so: see the contract.
pub fn tests_stay_fit()
    ensures { TestsStayFit }
{}
