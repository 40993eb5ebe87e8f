//! The laws on the text of a verdict: a reader who cuts it at line feeds and at spaces finds the words of its lines,
//! and these tell the verdict.
//!
//! The functions have this as their contracts and nothing to run.
#![tactic(auto)]

ghost use Rattle.std.specs.Prelude.{◌≡◌, [], ◌∷◌, ◌++◌, List};
ghost use Rattle.units.specs.declared.disk.Serial.{Serial};
ghost use Rattle.imsm_text.specs.Text.{serial_text};
ghost use Rattle.container.specs.declared.verdict.Verdict.{Verdict};
ghost use Rattle.verdict_text.specs.Lines.{verdict_lines};
ghost use Rattle.verdict_lines_law.specs.Same.{AreTold, FitsVerdict, HaveNames, IsSerial};
ghost use Rattle.verdict_lines_law.specs.Words.{verdict_words, words_in};

/// The words of a verdict's lines are found in its text, with one empty line behind the last line feed. So two verdicts
/// of one text have the same words.
pub fn the_text_tells_the_verdict()
    ensures words { (serials present : List Serial) (v : Verdict)
        → words_in (verdict_lines serials present v) ≡ verdict_words serials present v ++ ([] ∷ []) ∷ [] }
    ensures same { (serials present : List Serial) (v w : Verdict)
        → verdict_lines serials present v ≡ verdict_lines serials present w
        → verdict_words serials present v ≡ verdict_words serials present w }
{}

/// So where no two disks have one name, and the numbers of two verdicts are those of their types, one text tells that
/// the verdicts are the same, but for what isn't printed of an opening: its book, and the indices of the records of
/// members and of failed disks.
pub fn the_words_tell_the_verdict()
    ensures verdicts { (serials present : List Serial) (v w : Verdict) → HaveNames serials
        → FitsVerdict serials present v → FitsVerdict serials present w
        → verdict_lines serials present v ≡ verdict_lines serials present w → AreTold v w }
    ensures names { (s t : Serial) → IsSerial s → IsSerial t → serial_text s ≡ serial_text t → s ≡ t }
{}
