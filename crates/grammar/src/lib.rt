//! How programs are read: a push-down machine that takes one token at a time, proved to read exactly the programs
//! of the grammar.

#![tactic(auto)]

ghost use Rattle.meaning.specs.Promise.{OneProgram};
ghost use Rattle.meaning.specs.Grammar.{Reads};
ghost use Rattle.grammar.specs.Promise.{ParseExactly, ReadExactly, NoProgram};
ghost use Rattle.grammar.specs.WorkedTexts.{WorkedTexts};
ghost use Rattle.grammar.specs.Promise.{TestedByToken, FineIsSound, StopsEarly, StopsAtToken};
ghost use Rattle.grammar.specs.Examples.{echo_text, echo_program, sums_text, sums_program, compared_text};

/// A text is at most one program.
pub fn one_program()
    ensures { OneProgram }
{}

/// Tokens, and whole texts, are a program exactly if the machine gives that program.
pub fn read_exactly()
    ensures tokens { ParseExactly }
    ensures text { ReadExactly }
{}

/// Who reads a text may test each token as it comes: all tests together ask that the program is sound.
pub fn tested_by_token()
    ensures step { TestedByToken }
    ensures end { FineIsSound }
{}

/// Who reads a text may stop at the first token that fails its test: the text is no program, whatever follows.
pub fn stops_early()
    ensures state { StopsEarly }
    ensures token { StopsAtToken }
{}

/// Two texts are the programs that one expects, and a third is none.
pub fn examples_read()
    ensures echo { Reads echo_text echo_program }
    ensures sums { Reads sums_text sums_program }
    ensures refused { NoProgram compared_text }
{}

/// Five texts are the programs that they should be, show what they should, and end.
pub fn worked_texts()
    ensures { WorkedTexts }
{}
