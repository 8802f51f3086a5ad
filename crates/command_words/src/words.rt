//! The command that the words spell.
ghost use Rattle.std.specs.Prelude.{◌≡◌, ◌≤◌, map, IfSome};
ghost use Rattle.mesh_base.specs.Place.{IsCoordinate};
ghost use Rattle.std.specs.Option.{option_map};
ghost use Rattle.std.specs.String.{string_bytes};
ghost use Rattle.command_words.specs.declared.words.Command.TheVariants.{Scan, Box};
ghost use Rattle.command_words.specs.Words.{bound_of, corner_of, area_from, query_of, how_of, cells_on, cells_of, rings_on, rings_of, surface_of, side_of, gen_of, step_command, upgrade_of, command_of, named_as, run_of, demo_of, watch_of, played_of, played_as};

use crate::hops::{Hops, MOST_HOPS};
use cell_box::How;
use mesh_base::{BoxQ, Point};
use oct_text::{count, signed};
use sample_meshes::{MOST_SIDE, Side};

// The greatest number of a step that may be asked for.
const MOST_STEP: u64 = 10_000;

// The most cubes along a side of the block of a demo.
const MOST_DEMO_SIDE: u64 = 40;

/// What is to be done, with the names of the files that it reads.
#[derive(Clone, Copy, Debug, PartialEq, Eq)]
pub enum Command<N> {
    /// All vertices inside the box.
    Scan { mesh: N, area: BoxQ },
    /// All vertices of the surface.
    Surface { mesh: N },
    /// The mesh of a block of so many cubes a side.
    Gen { side: Side },
    /// The mesh of this step, from 0 to 10,000.
    Step { mesh: N, script: N, step: u32 },
    /// The script in version 2.
    Upgrade { script: N },
    /// The answer of the box.
    Box { mesh: N, area: BoxQ },
    /// The cells of the answer of the box.
    Cells { mesh: N, area: BoxQ, how: How },
    /// The rings round the answer of the box, up to so many edges away.
    Rings { mesh: N, area: BoxQ, most: Hops },
}

/// What is to be played by threads, with the names of the files that it reads.
#[derive(Clone, Copy, Debug, PartialEq, Eq)]
pub enum Played<N> {
    /// The job of a mesh and a script.
    Run { mesh: N, script: N },
    /// The job of a demo: the block of so many cubes a side, at most 40, shaken with this seed.
    Demo { side: Side, seed: u16 },
    /// The job of a mesh and a script, for what enters and leaves each box.
    Watch { mesh: N, script: N },
}

// The coordinate that a word spells.
fn coordinate(word: &str) -> Option<i32>
    ensures value { result ≡ bound_of word.now }
    ensures range { IfSome result IsCoordinate }
{
    let value = signed(word.as_bytes(), -(1 << 30), 1 << 30).ok()?;
    Some(value as i32)
}

// The corner that three words spell.
fn read_corner(x: &str, y: &str, z: &str) -> Option<Point>
    ensures { result ≡ corner_of x.now y.now z.now }
{
    Point::new(coordinate(x)?, coordinate(y)?, coordinate(z)?)
}

// The box between two corners.
fn read_area(lo: Option<Point>, hi: Option<Point>) -> Option<BoxQ>
    ensures { result ≡ area_from lo hi }
{
    BoxQ::new(lo?, hi?)
}

// The words behind `scan`.
fn read_scan(words: &[String]) -> Option<Command<&str>>
    ensures { option_map (named_as (λ name. name.now)) result ≡ query_of Scan (map string_bytes words.now) }
{
    let [mesh, x0, y0, z0, x1, y1, z1] = words else {
        return None;
    };
    let lo = read_corner(x0.as_str(), y0.as_str(), z0.as_str());
    let hi = read_corner(x1.as_str(), y1.as_str(), z1.as_str());
    let area = read_area(lo, hi)?;
    let mesh = mesh.as_str();
    Some(Command::Scan { mesh, area })
}

// The words behind `box`.
fn read_box(words: &[String]) -> Option<Command<&str>>
    ensures { option_map (named_as (λ name. name.now)) result ≡ query_of Box (map string_bytes words.now) }
{
    let [mesh, x0, y0, z0, x1, y1, z1] = words else {
        return None;
    };
    let lo = read_corner(x0.as_str(), y0.as_str(), z0.as_str());
    let hi = read_corner(x1.as_str(), y1.as_str(), z1.as_str());
    let area = read_area(lo, hi)?;
    let mesh = mesh.as_str();
    Some(Command::Box { mesh, area })
}

// Which cells a word asks for.
#[tactic(auto, unfolding(crate::specs::Words::how_of))]
fn read_how(word: &str) -> Option<How>
    ensures { result ≡ how_of word.now }
{
    match word {
        "all" => Some(How::Whole),
        "some" => Some(How::Touching),
        _ => None,
    }
}

// The words behind the mesh of `cells`.
fn read_cells_on<'a>(mesh: &'a str, words: &[String]) -> Option<Command<&'a str>>
    ensures { option_map (named_as (λ name. name.now)) result ≡ cells_on mesh.now (map string_bytes words.now) }
{
    let [x0, y0, z0, x1, y1, z1, how] = words else {
        return None;
    };
    let lo = read_corner(x0.as_str(), y0.as_str(), z0.as_str());
    let hi = read_corner(x1.as_str(), y1.as_str(), z1.as_str());
    let area = read_area(lo, hi)?;
    let how = read_how(how.as_str())?;
    Some(Command::Cells { mesh, area, how })
}

// The words behind `cells`.
fn read_cells(words: &[String]) -> Option<Command<&str>>
    ensures { option_map (named_as (λ name. name.now)) result ≡ cells_of (map string_bytes words.now) }
{
    let [mesh, rest @ ..] = words else {
        return None;
    };
    read_cells_on(mesh.as_str(), rest)
}

// The words behind the mesh of `rings`.
fn read_rings_on<'a>(mesh: &'a str, words: &[String]) -> Option<Command<&'a str>>
    ensures { option_map (named_as (λ name. name.now)) result ≡ rings_on mesh.now (map string_bytes words.now) }
{
    let [x0, y0, z0, x1, y1, z1, most] = words else {
        return None;
    };
    let lo = read_corner(x0.as_str(), y0.as_str(), z0.as_str());
    let hi = read_corner(x1.as_str(), y1.as_str(), z1.as_str());
    let area = read_area(lo, hi)?;
    let most = Hops::new(count(most.as_bytes(), u64::from(MOST_HOPS)).ok()? as u32);
    Some(Command::Rings { mesh, area, most })
}

// The words behind `rings`.
fn read_rings(words: &[String]) -> Option<Command<&str>>
    ensures { option_map (named_as (λ name. name.now)) result ≡ rings_of (map string_bytes words.now) }
{
    let [mesh, rest @ ..] = words else {
        return None;
    };
    read_rings_on(mesh.as_str(), rest)
}

// The word behind `surface`.
fn read_surface(words: &[String]) -> Option<Command<&str>>
    ensures { option_map (named_as (λ name. name.now)) result ≡ surface_of (map string_bytes words.now) }
{
    let [mesh] = words else {
        return None;
    };
    let mesh = mesh.as_str();
    Some(Command::Surface { mesh })
}

// The cubes along a side that a word spells, from 1 to `most`.
fn read_side(word: &str, most: u64) -> Option<Side>
    requires { most ≤ 87 }
    ensures { result ≡ side_of word.now most }
{
    Side::new(count(word.as_bytes(), most).ok()? as u32)
}

// The word behind `gen`.
fn read_gen(words: &[String]) -> Option<Command<&str>>
    ensures { option_map (named_as (λ name. name.now)) result ≡ gen_of (map string_bytes words.now) }
{
    let [side] = words else {
        return None;
    };
    let side = read_side(side.as_str(), u64::from(MOST_SIDE))?;
    Some(Command::Gen { side })
}

// The words behind `step`.
fn read_step(words: &[String]) -> Option<Command<&str>>
    ensures { option_map (named_as (λ name. name.now)) result ≡ step_command (map string_bytes words.now) }
{
    let [mesh, script, step] = words else {
        return None;
    };
    let step = count(step.as_bytes(), MOST_STEP).ok()? as u32;
    let mesh = mesh.as_str();
    let script = script.as_str();
    Some(Command::Step { mesh, script, step })
}

// The word behind `upgrade`.
fn read_upgrade(words: &[String]) -> Option<Command<&str>>
    ensures { option_map (named_as (λ name. name.now)) result ≡ upgrade_of (map string_bytes words.now) }
{
    let [script] = words else {
        return None;
    };
    let script = script.as_str();
    Some(Command::Upgrade { script })
}

/// The command that the words spell.
#[tactic(auto, unfolding(crate::specs::Words::command_of))]
pub fn read_command(words: &[String]) -> Option<Command<&str>>
    ensures { option_map (named_as (λ name. name.now)) result ≡ command_of (map string_bytes words.now) }
{
    let [name, rest @ ..] = words else {
        return None;
    };
    match name.as_str() {
        "scan" => read_scan(rest),
        "surface" => read_surface(rest),
        "gen" => read_gen(rest),
        "step" => read_step(rest),
        "upgrade" => read_upgrade(rest),
        "box" => read_box(rest),
        "cells" => read_cells(rest),
        "rings" => read_rings(rest),
        _ => None,
    }
}

// The words behind `run`.
fn read_run(words: &[String]) -> Option<Played<&str>>
    ensures { option_map (played_as (λ name. name.now)) result ≡ run_of (map string_bytes words.now) }
{
    let [mesh, script] = words else {
        return None;
    };
    let mesh = mesh.as_str();
    let script = script.as_str();
    Some(Played::Run { mesh, script })
}

// The words behind `demo`.
fn read_demo(words: &[String]) -> Option<Played<&str>>
    ensures { option_map (played_as (λ name. name.now)) result ≡ demo_of (map string_bytes words.now) }
{
    let [side, seed] = words else {
        return None;
    };
    let side = read_side(side.as_str(), MOST_DEMO_SIDE)?;
    let seed = count(seed.as_bytes(), u64::from(u16::MAX)).ok()? as u16;
    Some(Played::Demo { side, seed })
}

// The words behind `watch`.
fn read_watch(words: &[String]) -> Option<Played<&str>>
    ensures { option_map (played_as (λ name. name.now)) result ≡ watch_of (map string_bytes words.now) }
{
    let [mesh, script] = words else {
        return None;
    };
    let mesh = mesh.as_str();
    let script = script.as_str();
    Some(Played::Watch { mesh, script })
}

/// What the words ask to be played, if they do.
#[tactic(auto, unfolding(crate::specs::Words::played_of))]
pub fn read_played(words: &[String]) -> Option<Played<&str>>
    ensures { option_map (played_as (λ name. name.now)) result ≡ played_of (map string_bytes words.now) }
{
    let [name, rest @ ..] = words else {
        return None;
    };
    match name.as_str() {
        "run" => read_run(rest),
        "demo" => read_demo(rest),
        "watch" => read_watch(rest),
        _ => None,
    }
}
