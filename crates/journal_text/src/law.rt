//! The lines of a journal spell it, and an example.
ghost use Rattle.std.specs.Prelude.{◌≡◌, List};
ghost use Rattle.std.specs.List.{AllByRecursion};
ghost use Rattle.array_model.specs.declared.journal.Entry.{Entry};
ghost use Rattle.array_model.specs.Fits.{FitsEntry};
ghost use Rattle.array_model.specs.Small.{worked_journal};
ghost use Rattle.journal_text.specs.Lines.{entry_line, journal_text};
ghost use Rattle.journal_text.specs.Worked.{worked_text};

/// A line spells one entry, and the lines of a journal one journal: where two have the same text, they are equal. Their
/// entries are such as a run can hold, with numbers of their types and whole sectors.
pub fn lines_spell_one_journal()
    ensures entry { (a b : Entry) → FitsEntry a → FitsEntry b → entry_line a ≡ entry_line b → a ≡ b }
    ensures journal { (a b : List Entry) → AllByRecursion FitsEntry a → AllByRecursion FitsEntry b
        → journal_text a ≡ journal_text b → a ≡ b }
{}

/// The text of the journal of one write and one read, whose entries are such.
pub fn example_of_a_text()
    ensures text { journal_text worked_journal ≡ worked_text }
    ensures fits { AllByRecursion FitsEntry worked_journal }
{}
