// What a netlist text means, and the laws of that meaning. The definitions are in specs/, and each law stands on a function here.
#![tactic(auto)]

ghost use Rattle.netlist_text.specs.Law.{TakenIsSound};
ghost use Rattle.netlist_text.specs.Written.{ReadsBack};

// Every netlist that a text gives is sound: see the contract.
pub fn taken_is_sound()
    ensures { TakenIsSound }
{}

// The text that a sound netlist is written as gives that netlist: see the contract.
pub fn written_reads_back()
    ensures { ReadsBack }
{}
