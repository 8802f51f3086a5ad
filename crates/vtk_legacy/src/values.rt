//! What single tokens say.
ghost use Rattle.std.specs.Prelude.{◌≡◌, ◌≤◌, IfOk, Ok, true};
ghost use Rattle.oct_text.specs.Rest.{Left};
ghost use Rattle.oct_text.specs.Numbers.{count_of};
ghost use Rattle.oct_text.specs.Taken.{token_taken};
ghost use Rattle.vtk_legacy.specs.MeshText.{counted, numeric_taken, expected, coordinate_taken, format_taken, indexed};
ghost use Rattle.vtk_legacy.specs.Outcome.{Agrees};

use crate::coordinate::Coordinate;
use crate::fault::{MeshFault, MeshKind};
use crate::words::{is_numeric_word, is_word};
use mesh_base::{MOST_CELLS, MOST_POINTS};
use oct_text::{CountFault, NumFault, count, whole};

/// The most that a count can be.
pub const COUNT_MAX: u64 = u32::MAX as u64;

/// The most points of a mesh.
pub const POINTS_MAX: u64 = MOST_POINTS as u64;

/// The most cells of a mesh.
pub const CELLS_MAX: u64 = MOST_CELLS as u64;

/// The most offsets: one more than there are cells.
pub const OFFSETS_MAX: u64 = CELLS_MAX + 1;

pub fn fault<T>(kind: MeshKind, place: u64) -> Result<T, MeshFault>
    ensures { result ≡ Err (MeshFault.Bad kind place) }
{
    Err(MeshFault::Bad { kind, place })
}

/// A count of at most `most`.
pub fn count_at(place: u64, text: &[u8], most: u64) -> Result<u64, MeshFault>
    ensures agrees { (after : Left) → Agrees (λ n. (n, after)) result
        (counted (token_taken place text.now, after) (count_of text.now most)) }
    ensures within { IfOk result (λ n. n ≤ most) }
{
    match count(text, most) {
        Ok(n) => Ok(n),
        Err(CountFault::Bad) => fault(MeshKind::Number, place),
        Err(CountFault::Over) => fault(MeshKind::Count, place),
    }
}

/// A point number, below the number of points.
#[tactic(auto, unfolding(oct_text::specs::Numbers::count_of))]
pub fn index_at(place: u64, text: &[u8], points: u32) -> Result<u32, MeshFault>
    ensures { (after : Left) → Agrees (λ p. (p, after)) result (indexed points (token_taken place text.now, after)) }
{
    match count(text, u64::MAX) {
        Ok(p) => {
            if p < u64::from(points) {
                Ok(p as u32)
            } else {
                fault(MeshKind::Index, place)
            }
        }
        Err(CountFault::Bad) => fault(MeshKind::Number, place),
        Err(CountFault::Over) => fault(MeshKind::Index, place),
    }
}

/// Asks for the word of a type of numbers.
pub fn numeric_at(place: u64, text: &[u8], kind: MeshKind) -> Result<(), MeshFault>
    ensures { (after : Left) → Agrees (λ _. after) result (numeric_taken kind (token_taken place text.now, after)) }
{
    if is_numeric_word(text) {
        Ok(())
    } else {
        fault(kind, place)
    }
}

/// Asks for a word.
pub fn word_at(place: u64, text: &[u8], word: &[u8], kind: MeshKind) -> Result<(), MeshFault>
    ensures { (after : Left) → Agrees (λ _. after) result (expected word.now kind (token_taken place text.now, after)) }
{
    if is_word(text, word) {
        Ok(())
    } else {
        fault(kind, place)
    }
}

/// Asks for `ASCII`.
pub fn format_at(place: u64, text: &[u8]) -> Result<(), MeshFault>
    ensures { (after : Left) → Agrees (λ _. after) result (format_taken (token_taken place text.now, after)) }
{
    if is_word(text, b"ascii") {
        return Ok(());
    }
    if is_word(text, b"binary") {
        return fault(MeshKind::Binary, place);
    }
    fault(MeshKind::Format, place)
}

/// A coordinate.
pub fn coordinate_at(place: u64, text: &[u8]) -> Result<Coordinate, MeshFault>
    ensures { (after : Left) → Agrees (λ z. (z, after)) result (coordinate_taken (token_taken place text.now, after)) }
{
    match whole(text) {
        Ok(z) => Ok(Coordinate::new(z)),
        Err(NumFault::Bad) => fault(MeshKind::Number, place),
        Err(NumFault::NotWhole) => fault(MeshKind::NotWhole, place),
        Err(NumFault::Range) => fault(MeshKind::Range, place),
    }
}
