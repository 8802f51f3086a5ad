//! The command `rings`.
ghost use Rattle.std.specs.Prelude.{◌≡◌, ◌++◌, ◌<◌, length, codes, OnOk, IfOk, Some};
ghost use Rattle.std.specs.Fmt.{decimal};
ghost use Rattle.command_words.specs.declared.words.Command.TheVariants as commands;
ghost use Rattle.octopus.specs.Lines.{line, route_word};
ghost use Rattle.octopus.specs.Rings.{ring_text, ring_part, rings_part, rings_text, TellsRings};
ghost use Rattle.octopus.specs.Due.{due_of};
ghost use Rattle.octopus.specs.Outcomes.{Owes};

use crate::files::load_mesh;
use crate::lines::{put_list_line, put_route};
use crate::one_step::only_step;
use crate::outcome::Early;
use box_crawl::Marks;
use command_words::Hops;
use hop_rings::{Ring, rings_round};
use mesh_base::{BoxQ, NoMemory, Route};
use oct_edge::Folder;
use report::{put_labelled, put_labelled_line};
use std::alloc::Global;
use step_view::Step;

// Appends the line of a ring.
fn put_ring_line(alloc: Global, out: &mut Vec<u8>, number: u64, count: u64) -> Result<(), NoMemory>
    ensures { OnOk result (out.new.items ≡ out.old.items
        ++ line (codes "ring " ++ decimal number ++ (codes " count " ++ decimal count))) }
{
    put_labelled(alloc, out, b"ring ", number)?;
    put_labelled_line(alloc, out, b" count ", count)
}

// Appends the line of a ring, its vertices, and their sources.
fn put_ring(alloc: Global, out: &mut Vec<u8>, number: u64, ring: &Ring) -> Result<(), NoMemory>
    ensures { OnOk result (out.new.items ≡ out.old.items ++ ring_text number ring.now) }
{
    let vertices = ring.vertices.items();
    put_ring_line(alloc, out, number, vertices.len() as u64)?;
    put_list_line(alloc, out, vertices)?;
    put_list_line(alloc, out, ring.sources.items())
}

// Appends a ring of a list.
fn put_ring_at(
    alloc: Global,
    out: &mut Vec<u8>,
    rings: &[Ring],
    number: usize,
) -> Result<(), NoMemory>
    requires { number < length rings.now }
    ensures { OnOk result (out.new.items ≡ out.old.items ++ ring_part rings.now number) }
{
    put_ring(alloc, out, number as u64, &rings[number])
}

// Appends all rings of a list.
fn put_rings(alloc: Global, out: &mut Vec<u8>, rings: &[Ring]) -> Result<(), NoMemory>
    ensures { OnOk result (out.new.items ≡ out.old.items ++ rings_part rings.now (length rings.now)) }
{
    for number in 0..rings.len() {
        put_ring_at(alloc, out, rings, number)?;
    }
    Ok(())
}

// How a box is answered, and the rings round its answer.
fn ring_lines(alloc: Global, route: Route, rings: &[Ring]) -> Result<Vec<u8>, NoMemory>
    ensures { IfOk result (λ text. text.items ≡ rings_text route rings.now) }
{
    let mut out = Vec::new(alloc);
    put_route(alloc, &mut out, route)?;
    put_rings(alloc, &mut out, rings)?;
    Ok(out)
}

// The text of the rings round the answer of a box on a step.
fn told_rings(alloc: Global, area: &BoxQ, most: Hops, step: &Step) -> Result<Vec<u8>, NoMemory>
    ensures { IfOk result (λ text. TellsRings step.now.mesh area.now most text.items) }
{
    let mut marks = Marks::new(alloc, step.points())?;
    let (route, rings) = rings_round(alloc, step, area, &mut marks, most.edges())?;
    ring_lines(alloc, route, rings.items())
}

/// Reads the mesh and lists the rings round the answer of the box.
pub fn run_rings<F: Folder>(
    alloc: Global,
    mesh: &str,
    area: &BoxQ,
    most: Hops,
    folder: &mut F,
) -> Result<Vec<u8>, Early>
    ensures { Owes F.files F.rest F.faults F.opened 1 folder.old folder.new result
        (due_of (Some (commands.Rings mesh.now area.now most))) }
{
    let mesh = load_mesh(alloc, mesh, folder)?;
    let step = only_step(alloc, mesh)?;
    Ok(told_rings(alloc, area, most, &step)?)
}
