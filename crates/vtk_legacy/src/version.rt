//! The first line, which names a version.
ghost use Rattle.std.specs.Prelude.{◌≡◌, ◌≤◌, ◌+◌, length, drop, MatchOption, IsTrue, true, false};
ghost use Rattle.std.specs.List.{list_all, position_or_len};
ghost use Rattle.oct_text.specs.Numbers.{is_point};
ghost use Rattle.vtk_legacy.specs.Version.{is_gap, is_short_number, form_of, version_form, has_magic};
ghost use Rattle.std.specs.Str.Parse.{digits_value};

use crate::gathered::CellForm;
use oct_text::count;

fn is_point_byte(b: u8) -> bool
    ensures { result ≡ is_point b }
{
    b == b'.'
}

/// The place of the point, or the length.
fn point_place(text: &[u8]) -> usize
    ensures within { result ≤ length text.now }
    ensures exact { result ≡ position_or_len is_point text.now }
{
    for (i, b) in text.iter().enumerate() {
        if is_point_byte(*b) {
            return i;
        }
    }
    text.len()
}

fn is_gap_byte(b: u8) -> bool
    ensures { result ≡ is_gap b }
{
    b == b' ' || b == b'\t'
}

/// The place of the first space or tab, or the length.
fn gap_place(text: &[u8]) -> usize
    ensures within { result ≤ length text.now }
    ensures exact { result ≡ position_or_len is_gap text.now }
{
    for (i, b) in text.iter().enumerate() {
        if is_gap_byte(*b) {
            return i;
        }
    }
    text.len()
}

fn only_gaps(text: &[u8]) -> bool
    ensures { result ≡ list_all is_gap text.now }
{
    text.iter().all(|b| is_gap_byte(*b))
}

/// What stands behind a place, and nothing at the end.
fn behind(text: &[u8], at: usize) -> &[u8]
    requires { at ≤ length text.now }
    ensures { result.now ≡ drop (at + 1) text.now }
{
    if at < text.len() {
        &text[at + 1..]
    } else {
        &text[at..]
    }
}

/// The number of 1 to 3 digits.
#[tactic(auto, unfolding(oct_text::specs::Numbers::count_of))]
fn short_number(text: &[u8]) -> Option<u64>
    ensures { MatchOption result (is_short_number text.now ≡ false)
        (λ n. (is_short_number text.now ≡ true) × (n ≡ digits_value 10 text.now)) }
{
    if text.len() > 3 {
        return None;
    }
    match count(text, 999) {
        Ok(n) => Some(n),
        Err(_) => None,
    }
}

/// The form of the cells in a version.
fn form_in(major: u64, minor: u64) -> Option<CellForm>
    ensures { result ≡ form_of major minor }
{
    if major > 0 && major < 5 {
        return Some(CellForm::Counts);
    }
    if major == 5 && minor == 1 {
        return Some(CellForm::Offsets);
    }
    None
}

/// The form of the cells, where the text is a version.
#[tactic(auto, unfolding(crate::specs::Version::version_form))]
pub fn form(text: &[u8]) -> Option<CellForm>
    ensures { result ≡ version_form text.now }
{
    let point = point_place(text);
    let back = behind(text, point);
    let gap = gap_place(back);
    let major = short_number(&text[..point])?;
    let minor = short_number(&back[..gap])?;
    if only_gaps(behind(back, gap)) {
        form_in(major, minor)
    } else {
        None
    }
}

/// Whether the first line begins as that of a VTK legacy file.
#[tactic(auto, unfolding(crate::specs::Version::has_magic))]
pub fn is_magic(line: &[u8]) -> bool
    ensures exact { result ≡ has_magic line.now }
    ensures long { IsTrue result → 23 ≤ length line.now }
{
    line.starts_with(b"# vtk DataFile Version ")
}
