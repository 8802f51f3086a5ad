//! Texts cut into lines, and lines cut into words.
ghost use Rattle.std.specs.Prelude.{◌≡◌, ◌≤◌, [], length, drop, MatchOption};
ghost use Rattle.std.specs.List.{position};
ghost use Rattle.oct_text.specs.Line.{without_cr};
ghost use Rattle.script_format.specs.ScriptText.{is_lf, is_space, lines, words};
ghost use Rattle.script_format.specs.Reads.{Cuts, is_solid};

/// The first line of a text or the first word of a line, and what is left behind it.
#[derive(Clone, Copy)]
pub struct Cut<'a> {
    pub front: &'a [u8],
    pub rest: &'a [u8],
}

fn is_space_byte(b: u8) -> bool
    ensures { result ≡ is_space b }
{
    b == b' ' || b == b'\t'
}

// Where the first LF stands.
fn line_end(text: &[u8]) -> Option<usize>
    ensures { result ≡ position is_lf text.now }
{
    text.iter().position(|b| *b == b'\n')
}

// Where the first space or tab stands.
fn word_end(text: &[u8]) -> Option<usize>
    ensures { result ≡ position is_space text.now }
{
    text.iter().position(|b| is_space_byte(*b))
}

// Where the first byte stands that is no space and no tab.
fn word_start(line: &[u8]) -> Option<usize>
    ensures { result ≡ position is_solid line.now }
{
    line.iter().position(|b| !is_space_byte(*b))
}

// The line without one CR at its end.
fn chomped(line: &[u8]) -> &[u8]
    ensures { result.now ≡ without_cr line.now }
{
    match line {
        [front @ .., b'\r'] => front,
        _ => line,
    }
}

// The bytes behind the first ones.
fn behind(bytes: &[u8], count: usize) -> &[u8]
    requires { count ≤ length bytes.now }
    ensures { result.now ≡ drop count bytes.now }
{
    &bytes[count..]
}

/// The first line of a text.
pub fn next_line(text: &[u8]) -> Option<Cut<'_>>
    ensures { MatchOption result (lines text.now ≡ []) (λ cut. Cuts lines text.now cut.front.now cut.rest.now) }
{
    if let Some(end) = line_end(text) {
        return Some(Cut {
            front: chomped(&text[..end]),
            rest: behind(text, end + 1),
        });
    }
    if text.is_empty() {
        return None;
    }
    Some(Cut {
        front: chomped(text),
        rest: &[],
    })
}

/// The first word of a line.
pub fn next_word(line: &[u8]) -> Option<Cut<'_>>
    ensures { MatchOption result (words line.now ≡ []) (λ cut. Cuts words line.now cut.front.now cut.rest.now) }
{
    let start = word_start(line)?;
    let text = behind(line, start);
    match word_end(text) {
        Some(end) => Some(Cut {
            front: &text[..end],
            rest: behind(text, end),
        }),
        None => Some(Cut {
            front: text,
            rest: &[],
        }),
    }
}

/// How many words a line has.
pub fn count_words(line: &[u8]) -> usize
    ensures count { result ≡ length (words line.now) }
    ensures within { result ≤ length line.now }
{
    let mut count = 0;
    let mut rest = line;
    while let Some(word) = next_word(rest) {
        count += 1;
        rest = word.rest;
    }
    count
}
