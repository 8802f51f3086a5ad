//! The reader of a script.
ghost use Rattle.std.specs.Prelude.{◌≡◌, ℕ, ◌+◌, ◌^◌, ◌<◌, false, List, [], ◌∷◌, length, MatchOption, IfOk, codes};
ghost use Rattle.std.specs.Cmp.Lexicographic.{pointwise};
ghost use Rattle.std.specs.Str.{bytes_eq};
ghost use Rattle.run_script.specs.Outcome.{Agrees};
ghost use Rattle.script_format.specs.Reads.{Begins, IsVersion};
ghost use Rattle.script_format.specs.ScriptText.{Word, words, lines, header, behind_header, script_text};

use crate::cuts::{next_line, next_word};
use crate::reading::Reading;
use run_script::{Script, ScriptFault, ScriptKind};
use std::alloc::Global;

// What stands behind the first word of a line, where that is this word.
fn behind_word<'a>(line: &'a [u8], word: &[u8]) -> Option<&'a [u8]>
    ensures { MatchOption result ((ws : List Word) → pointwise bytes_eq (words line.now) (word.now ∷ ws) ≡ false)
        (λ rest. Begins line.now word.now rest.now) }
{
    match next_word(line) {
        Some(cut) => {
            if cut.front == word {
                return Some(cut.rest);
            }
            None
        }
        None => None,
    }
}

// Whether a line has this word alone.
fn is_word(line: &[u8], word: &[u8]) -> bool
    ensures { result ≡ pointwise bytes_eq (words line.now) (word.now ∷ []) }
{
    match behind_word(line, word) {
        Some(rest) => next_word(rest).is_none(),
        None => false,
    }
}

fn bad_header<T>() -> Result<T, ScriptFault>
    ensures { result ≡ Err (ScriptFault.Bad ScriptKind.Header 1) }
{
    let kind = ScriptKind::Header;
    let line = 1;
    Err(ScriptFault::Bad { kind, line })
}

// The version that the first line gives.
#[tactic(auto, unfolding(crate::specs::ScriptText::header))]
fn header_of(line: &[u8]) -> Result<u32, ScriptFault>
    ensures agrees { Agrees result (header (words line.now)) }
    ensures version { IfOk result IsVersion }
{
    let Some(second) = behind_word(line, b"octopus") else {
        return bad_header();
    };
    let Some(third) = behind_word(second, b"script") else {
        return bad_header();
    };
    if is_word(third, b"1") {
        return Ok(1);
    }
    if is_word(third, b"2") {
        return Ok(2);
    }
    bad_header()
}

// The script of the lines behind the first.
fn read_rows(alloc: Global, version: u32, text: &[u8]) -> Result<Script, ScriptFault>
    requires small { length text.now + 1 < 2 ^ 32 }
    requires version { IsVersion version }
    ensures { Agrees result (behind_header (lines text.now) version) }
{
    let mut reading = Reading::new(alloc);
    let mut line = 1;
    let mut rest = text;
    while let Some(cut) = next_line(rest) {
        line += 1;
        reading.take_line(alloc, version, line, cut.front)?;
        rest = cut.rest;
    }
    reading.finish(version, line)
}

/// The script that a text is, or its first fault.
///
/// Lines end with LF or CR LF, words are separated by spaces and tabs, and comments begin with `#`. The first faulty
/// line gives the fault, and on a line the first check that fails: the first word, the order, the number of words, the
/// limits, the values from left to right, the corners of a box. It reads the text once and takes memory for the script
/// alone.
#[tactic(auto, unfolding(crate::specs::ScriptText::script_text))]
pub fn read_script(alloc: Global, text: &[u8]) -> Result<Script, ScriptFault>
    requires { length text.now < 2 ^ 32 }
    ensures { Agrees result (script_text text.now) }
{
    let Some(first) = next_line(text) else {
        let kind = ScriptKind::Truncated;
        let line = 0;
        return Err(ScriptFault::Bad { kind, line });
    };
    let version = header_of(first.front)?;
    read_rows(alloc, version, first.rest)
}
