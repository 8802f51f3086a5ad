//! Where blanks, words and lines end.
ghost use Rattle.std.specs.Prelude.{◌≡◌, ◌≤◌, length};
ghost use Rattle.std.specs.List.{prefix_len, list_all};
ghost use Rattle.oct_text.specs.Rest.{is_blank, solid_len, line_len};
ghost use Rattle.oct_text.specs.Line.{without_cr};

pub fn is_blank_byte(b: u8) -> bool
    ensures { result ≡ is_blank b }
{
    b == b' ' || (b > 8 && b < 14)
}

/// How many blanks stand at the front.
pub fn blanks(bytes: &[u8]) -> usize
    ensures within { result ≤ length bytes.now }
    ensures exact { result ≡ prefix_len is_blank bytes.now }
{
    for (i, b) in bytes.iter().enumerate() {
        if !is_blank_byte(*b) {
            return i;
        }
    }
    bytes.len()
}

/// How many bytes stand before the first blank, where there is none among the first `known`.
pub fn word_end(bytes: &[u8], known: usize) -> usize
    requires { known ≤ solid_len bytes.now }
    ensures within { result ≤ length bytes.now }
    ensures exact { result ≡ solid_len bytes.now }
{
    for i in known..bytes.len() {
        if is_blank_byte(bytes[i]) {
            return i;
        }
    }
    bytes.len()
}

/// How many bytes stand before the first LF, where there is none among the first `known`.
pub fn line_end(bytes: &[u8], known: usize) -> usize
    requires { known ≤ line_len bytes.now }
    ensures within { result ≤ length bytes.now }
    ensures exact { result ≡ line_len bytes.now }
{
    for i in known..bytes.len() {
        if bytes[i] == b'\n' {
            return i;
        }
    }
    bytes.len()
}

pub fn all_blank(bytes: &[u8]) -> bool
    ensures { result ≡ list_all is_blank bytes.now }
{
    bytes.iter().all(|b| is_blank_byte(*b))
}

/// The line without one CR at its end.
pub fn chomped(line: &[u8]) -> &[u8]
    ensures { result.now ≡ without_cr line.now }
{
    match line {
        [front @ .., b'\r'] => front,
        _ => line,
    }
}
