//! What the definitions of a mix that is read word by word say of the listed mixes.

ghost use Rattle.c_specs.specs.Laws.{WholeAreMixes, MixesGoOn, MixesHaveNoFault, OneFaultAtMost, BadTokensBegin};

/// Words after which a whole mix stands are a mix, and no others are.
pub fn whole_are_mixes()
    ensures { WholeAreMixes }
{}

/// Each word of a mix goes on with the words before it.
pub fn mixes_go_on()
    ensures { MixesGoOn }
{}

/// The words of a mix have no fault.
pub fn mixes_have_no_fault()
    ensures { MixesHaveNoFault }
{}

/// Words have one fault at most, and so one first token of a word with which no mix begins.
pub fn one_fault_at_most()
    ensures { OneFaultAtMost }
{}

/// The tokens of a word with which no mix begins begin with that of the fault.
pub fn bad_tokens_begin()
    ensures { BadTokensBegin }
{}
