//! The script of a command is read from its source.
ghost use Rattle.std.specs.Prelude.{◌≡◌, IfOk, IfErr};
ghost use Rattle.run_script.specs.Within.{IsWithin};
ghost use Rattle.image_outside.specs.Endings.{EndsIfMemory, Prints};
ghost use Rattle.image_outside.specs.Views.{sink_told, source_told};
ghost use Rattle.image_run.specs.Scripts.{IsScript, IsStopped, StopsBy, TakesScript, TakesSome, kind_word, limit_word, stop_line, stop_status};

use array_model::Script;
use image_outside::{
    Sink, Source, SourceFault, Status, end, end_line, end_without_memory, read_all,
};
use imsm_text::Word;
use run_script::{LimitKind, LineKind, ScriptFault, parse_script};
use std::alloc::Global;

/// Why a command has no script.
#[derive(Clone, Copy, Debug, PartialEq, Eq)]
pub enum ScriptStop {
    /// There was no memory.
    Memory,
    /// A read failed.
    Read,
    /// The source has more bytes than are read.
    Bytes,
    /// The number of the first wrong line, from 1, and what is wrong with its first wrong word.
    Line(u64, LineKind),
    /// What there is too much of, and the first number past the limit; for clients the client.
    Limit(LimitKind, u64),
}

/// Reads a source to its end, and the script that it is.
pub(crate) fn read_script<S: Source>(alloc: Global, source: &mut S) -> Result<Script, ScriptStop>
    ensures taken { IfOk result (λ script.
        TakesScript (source_told S.Source source.old) (source_told S.Source source.new) script) }
    ensures within { IfOk result (λ script. IsWithin script) }
    ensures some { TakesSome (source_told S.Source source.old) (source_told S.Source source.new) }
    ensures stopped { IfErr result (λ stop.
        StopsBy (source_told S.Source source.old) (source_told S.Source source.new) stop) }
{
    let text = match read_all(alloc, source) {
        Ok(text) => text,
        Err(SourceFault::Memory) => return Err(ScriptStop::Memory),
        Err(SourceFault::Failed) => return Err(ScriptStop::Read),
        Err(SourceFault::Bytes) => return Err(ScriptStop::Bytes),
    };
    match parse_script(alloc, text.as_slice(), true) {
        Ok(script) => Ok(script),
        Err(ScriptFault::Memory) => Err(ScriptStop::Memory),
        Err(ScriptFault::Line(number, kind)) => Err(ScriptStop::Line(number, kind)),
        Err(ScriptFault::Limit(kind, number)) => Err(ScriptStop::Limit(kind, number)),
    }
}

fn kind_word(kind: LineKind) -> &'static [u8]
    ensures { result.now ≡ kind_word kind }
{
    match kind {
        LineKind::Word => b"word",
        LineKind::Missing => b"missing",
        LineKind::Number => b"number",
        LineKind::Value => b"value",
        LineKind::Name => b"name",
        LineKind::Turns => b"turns",
    }
}

fn limit_word(kind: LimitKind) -> &'static [u8]
    ensures { result.now ≡ limit_word kind }
{
    match kind {
        LimitKind::Images => b"images",
        LimitKind::Bytes => b"bytes",
        LimitKind::Ops => b"ops",
        LimitKind::Asks => b"asks",
        LimitKind::Turns => b"turns",
        LimitKind::Clients => b"clients",
    }
}

/// Ends where there is no script.
pub(crate) fn end_stopped<K: Sink>(sink: &mut K, stop: ScriptStop) -> Status
    ensures { EndsIfMemory (sink_told K.Sink sink.old) (sink_told K.Sink sink.new)
        (λ lines status. IsStopped status × Prints (stop_line stop) (stop_status stop) lines status) result.0 }
{
    match stop {
        ScriptStop::Memory => end_without_memory(sink),
        ScriptStop::Read => end(sink, b"read fault\n", Status::READ_FAULT),
        ScriptStop::Bytes => end(sink, b"limit bytes 8388609\n", Status::LIMIT),
        ScriptStop::Line(number, kind) => {
            let words = [Word::Number(number), Word::Plain(kind_word(kind))];
            end_line(sink, b"script", &words, Status::SCRIPT)
        }
        ScriptStop::Limit(kind, number) => {
            let words = [Word::Plain(limit_word(kind)), Word::Number(number)];
            end_line(sink, b"limit", &words, Status::LIMIT)
        }
    }
}
