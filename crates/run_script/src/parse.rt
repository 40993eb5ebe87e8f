//! The script that a text is.
ghost use Rattle.std.specs.Prelude.{◌≡◌, length, OnOk, IfOk, IfErr, None};
ghost use Rattle.run_script.specs.Grammar.{asked_by, lines_of};
ghost use Rattle.run_script.specs.Limits.{Refuses};
ghost use Rattle.run_script.specs.Scripts.{AreRight, IsCause, orders_in, script_of, with_line, wrong_with};
ghost use Rattle.run_script.specs.Within.{IsWithin};

use crate::fault::ScriptFault;
use crate::grammar::asked_by;
use crate::limits::push_order;
use crate::pieces::Pieces;
use array_model::Script;
use std::alloc::Global;

/// Takes the line of this number.
fn push_line(script: &mut Script, number: u64, line: &[u8], turns: bool) -> Result<(), ScriptFault>
    ensures ok { OnOk result (script.new ≡ with_line script.old (asked_by turns line.now)) }
    ensures right { OnOk result (wrong_with script.old number (asked_by turns line.now) ≡ None) }
    ensures err { IfErr result (λ fault. Refuses (wrong_with script.old number (asked_by turns line.now)) fault) }
{
    match asked_by(line, turns) {
        Ok(None) => Ok(()),
        Ok(Some(order)) => push_order(script, order),
        Err(kind) => Err(ScriptFault::Line(number, kind)),
    }
}

/// The script that a text is. The first line with which something is wrong decides: a word that isn't in the grammar,
/// and else a limit that the line passes. Where `turns` is false, a line that begins with `turn` isn't in the grammar.
pub fn parse_script(alloc: Global, text: &[u8], turns: bool) -> Result<Script, ScriptFault>
    // Each line is empty, a comment or in the grammar, and no limit is passed.
    ensures whole { OnOk result (AreRight turns (lines_of text.now) (length (lines_of text.now))) }
    // The script is what the lines ask for, in their order.
    ensures script { IfOk result (λ script. script ≡ script_of (orders_in turns (lines_of text.now))) }
    // No limit is passed, what it names may be there, and its operations read and write rows alone.
    ensures within { IfOk result (λ script. IsWithin script) }
    // Of a fault other than want of memory: it is what is wrong with the first line that isn't right.
    ensures fault { IfErr result (λ fault. IsCause turns (lines_of text.now) fault) }
{
    let mut script = Script::new(alloc);
    let mut lines = Pieces::of(text, b'\n');
    let mut number = 0;
    while let Some(line) = lines.next() {
        number += 1;
        push_line(&mut script, number, line, turns)?;
    }
    Ok(script)
}
