//! The law of wrong words.
ghost use Rattle.run_script.specs.FirstWrong.{FirstWrongWord};

/// What the reading of a line finds wrong is its first wrong word: the words before it begin some line of the grammar,
/// and with it they begin none. Where a word is missing, the words begin some line.
pub fn first_wrong_word()
    ensures { FirstWrongWord }
{}
