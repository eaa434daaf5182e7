// Laws of the definitions in specs/.
ghost use Rattle.nt_lexer.specs.Laws.{EachList, EachWord, OneCut};
ghost use Rattle.nt_lexer.specs.Lexemes.{LongestMatch};
ghost use Rattle.nt_lexer.specs.Quoted.{EachText};

/// A file has one list of tokens or one first fault.
pub fn one_cut()
    ensures { OneCut }
{}

/// The last token of a file and no other is `End`, and the tokens stand in the order of their offsets.
pub fn each_list()
    ensures { EachList }
{}

/// Each token, blank and comment of one line is the longest lexeme at its place.
pub fn longest_match()
    ensures { LongestMatch }
{}

/// Each reserved word is read as itself.
pub fn each_word()
    ensures { EachWord }
{}

/// A text is closed exactly where it is so written, and it says what is written.
pub fn each_text()
    ensures { EachText }
{}
