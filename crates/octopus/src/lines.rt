//! The lines that are written.
ghost use Rattle.std.specs.Prelude.{◌≡◌, ◌++◌, ◌∷◌, [], codes, IfOk, OnOk};
ghost use Rattle.std.specs.Fmt.{decimal};
ghost use Rattle.octopus.specs.Lines.{line, no_step_line, route_word, answer_text, list_text, list_line};

use itoa::Buffer;
use mesh_base::{NoMemory, Route};
use oct_text::{put_list, put_text};
use std::alloc::Global;

// Appends a count or a place.
fn put_count(alloc: Global, out: &mut Vec<u8>, value: u64) -> Result<(), NoMemory>
    ensures { OnOk result (out.new.items ≡ out.old.items ++ decimal value) }
{
    let mut buffer = Buffer::new();
    put_text(alloc, out, buffer.format(value).as_bytes())
}

/// Appends a line of numbers, or nothing where there are none.
pub fn put_list_line(alloc: Global, out: &mut Vec<u8>, numbers: &[u32]) -> Result<(), NoMemory>
    ensures { OnOk result (out.new.items ≡ out.old.items ++ list_line numbers.now) }
{
    if numbers.is_empty() {
        return Ok(());
    }
    put_list(alloc, out, numbers)?;
    put_text(alloc, out, b"\n")
}

// Appends the number of a list's items, and the items.
fn put_list_text(alloc: Global, out: &mut Vec<u8>, numbers: &[u32]) -> Result<(), NoMemory>
    ensures { OnOk result (out.new.items ≡ out.old.items ++ list_text numbers.now) }
{
    put_text(alloc, out, b"count ")?;
    put_count(alloc, out, numbers.len() as u64)?;
    put_text(alloc, out, b"\n")?;
    put_list_line(alloc, out, numbers)
}

/// The number of a list's items, and the items.
pub fn list_lines(alloc: Global, numbers: &[u32]) -> Result<Vec<u8>, NoMemory>
    ensures { IfOk result (λ text. text.items ≡ list_text numbers.now) }
{
    let mut out = Vec::new(alloc);
    put_list_text(alloc, &mut out, numbers)?;
    Ok(out)
}

/// The line of a fault: what is refused, the fault's name, and where it is.
pub fn fault_line(alloc: Global, front: &[u8], name: &str, place: u64) -> Result<Vec<u8>, NoMemory>
    ensures { IfOk result (λ text. text.items ≡ line (front.now ++ name.now ++ 32 ∷ [] ++ decimal place)) }
{
    let mut out = front.to_vec(alloc)?;
    put_text(alloc, &mut out, name.as_bytes())?;
    put_text(alloc, &mut out, b" ")?;
    put_count(alloc, &mut out, place)?;
    put_text(alloc, &mut out, b"\n")?;
    Ok(out)
}

/// The refusal of a step above the last one.
pub fn missing_step_line(alloc: Global, step: u32, last: u32) -> Result<Vec<u8>, NoMemory>
    ensures { IfOk result (λ text. text.items ≡ no_step_line step last) }
{
    let mut out = b"refused step ".to_vec(alloc)?;
    put_count(alloc, &mut out, u64::from(step))?;
    put_text(alloc, &mut out, b" ")?;
    put_count(alloc, &mut out, u64::from(last))?;
    put_text(alloc, &mut out, b"\n")?;
    Ok(out)
}

// How an answer was found, as a word.
fn name_of_route(route: Route) -> &'static str
    ensures { result.now ≡ route_word route }
{
    match route {
        Route::Probe => "probe",
        Route::Walk => "walk",
        Route::Scan => "scan",
    }
}

/// Appends the line that tells how an answer was found.
pub fn put_route(alloc: Global, out: &mut Vec<u8>, route: Route) -> Result<(), NoMemory>
    ensures { OnOk result (out.new.items ≡ out.old.items ++ line (codes "route " ++ route_word route)) }
{
    put_text(alloc, out, b"route ")?;
    put_text(alloc, out, name_of_route(route).as_bytes())?;
    put_text(alloc, out, b"\n")
}

/// How an answer was found, and its vertices.
pub fn answer_lines(alloc: Global, route: Route, vertices: &[u32]) -> Result<Vec<u8>, NoMemory>
    ensures { IfOk result (λ text. text.items ≡ answer_text route vertices.now) }
{
    let mut out = Vec::new(alloc);
    put_route(alloc, &mut out, route)?;
    put_list_text(alloc, &mut out, vertices)?;
    Ok(out)
}
