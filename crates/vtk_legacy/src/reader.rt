//! The reader of a mesh text that comes in pieces.
ghost use Rattle.std.specs.Prelude.{◌≡◌, [], false};
ghost use Rattle.oct_text.specs.Rest.{continued};
ghost use Rattle.vtk_legacy.specs.MeshText.{mesh_text, mesh_of};
ghost use Rattle.vtk_legacy.specs.Kept.{Parts};
ghost use Rattle.vtk_legacy.specs.Machine.{Runs, Advances, ReadsOn, WantsToken, at_end, goes_on};
ghost use Rattle.vtk_legacy.specs.Outcome.{Agrees};

use crate::fault::{MeshFault, MeshKind};
use crate::gathered::Gathered;
use crate::lines::{skip_one, skip_rest, take_title, take_version};
use crate::plain::{take_numbers, take_offsets, take_points, take_rows, take_types};
use crate::stage::{Section, Stage};
use crate::steps::step;
use crate::values::fault;
use mesh_base::Mesh;
use oct_text::{Taken, Tokens};
use std::alloc::Global;

/// Takes the next token, and says whether there was a whole one.
fn take_token(tokens: &mut Tokens, stage: &mut Stage, got: &mut Gathered) -> Result<bool, MeshFault>
    requires { WantsToken stage.old }
    ensures { Advances stage.old got.old tokens.old result stage.new got.new tokens.new }
{
    match tokens.next() {
        Taken::Token { place, text } => {
            *stage = step(*stage, got, place, text)?;
            Ok(true)
        }
        Taken::More => Ok(false),
        Taken::End { place: _ } => Ok(false),
    }
}

// Reads on where parts are spelled plainly: a short cut, without which the next step does the same.
fn read_on(tokens: &mut Tokens, stage: &mut Stage, got: &mut Gathered) -> Result<(), MeshFault>
    ensures { ReadsOn stage.old got.old tokens.old result stage.new got.new tokens.new }
{
    match *stage {
        Stage::PointX { more } => {
            *stage = take_points(tokens, got, more)?;
            Ok(())
        }
        Stage::CellHead { more, room, place } => {
            *stage = take_rows(tokens, got, more, room, place)?;
            Ok(())
        }
        Stage::CellType { more } => {
            *stage = take_types(tokens, got, more);
            Ok(())
        }
        Stage::Offset {
            more,
            first: false,
            before,
            numbers,
        } => {
            *stage = take_offsets(tokens, got, more, before, numbers)?;
            Ok(())
        }
        Stage::Number { more, filling } => {
            *stage = take_numbers(tokens, got, more, filling)?;
            Ok(())
        }
        _ => Ok(()),
    }
}

/// Takes the next token or line, and says whether there was a whole one.
fn advance_one(
    tokens: &mut Tokens,
    stage: &mut Stage,
    got: &mut Gathered,
) -> Result<bool, MeshFault>
    ensures { Advances stage.old got.old tokens.old result stage.new got.new tokens.new }
{
    match *stage {
        Stage::Passed => Ok(false),
        Stage::Version => take_version(tokens, stage, got),
        Stage::Title => take_title(tokens, stage),
        Stage::MetadataLine { section } => Ok(skip_rest(tokens, section, stage)),
        Stage::MetadataLines { section } => Ok(skip_one(tokens, section, stage)),
        _ => take_token(tokens, stage, got),
    }
}

// Reads on where parts are spelled plainly, then takes the next token or line, and says whether there was a whole one.
fn advance(tokens: &mut Tokens, stage: &mut Stage, got: &mut Gathered) -> Result<bool, MeshFault>
    ensures { Advances stage.old got.old tokens.old result stage.new got.new tokens.new }
{
    read_on(tokens, stage, got)?;
    advance_one(tokens, stage, got)
}

/// Reads on as far as the bytes that came allow.
fn run(tokens: &mut Tokens, stage: &mut Stage, got: &mut Gathered) -> Result<(), MeshFault>
    ensures { Runs stage.old got.old tokens.old result stage.new got.new tokens.new }
{
    while advance(tokens, stage, got)? {}
    Ok(())
}

/// Whether a text can end here, with nothing left of it.
fn ending(stage: Stage, place: u64) -> Result<(), MeshFault>
    ensures { (got : Parts) → Agrees (λ _. mesh_of got.points got.cells) result (at_end stage got place) }
{
    match stage {
        Stage::Passed
        | Stage::Between {
            section: Section::Attributes,
        }
        | Stage::MetadataLine {
            section: Section::Attributes,
        }
        | Stage::MetadataLines {
            section: Section::Attributes,
        } => Ok(()),
        _ => Err(MeshFault::Bad {
            kind: MeshKind::Truncated,
            place,
        }),
    }
}

/// Reads what is left, where no more bytes come.
fn close(mut tokens: Tokens, mut stage: Stage, mut got: Gathered) -> Result<Gathered, MeshFault>
    ensures { Agrees (λ g. mesh_of g.points g.cells) result (goes_on stage got (continued tokens [])) }
{
    tokens.finish();
    run(&mut tokens, &mut stage, &mut got)?;
    ending(stage, tokens.end())?;
    Ok(got)
}

/// A reader of a mesh text that comes in pieces, cut anywhere.
///
/// It keeps the mesh as far as it was read: 20 bytes for each cell of the text, in which the cell is finished when its
/// type comes, 4 more for one that isn't of four different points, and 4 for each offset. Of the text itself it keeps
/// the token or line in work: nothing grows by a count that the text states before its numbers have come. Behind the
/// first attributes nothing is kept.
#[derive(Drop)]
pub struct MeshReader {
    tokens: Tokens,
    stage: Stage,
    got: Gathered,
    failed: Option<MeshFault>,
    ghost unended: { tokens.ended ≡ false },
}

impl MeshReader {
    ghost use Rattle.vtk_legacy.specs.Outcome.{Agrees, IsFault, IsFaultOfAll};
    ghost use Rattle.vtk_legacy.specs.MeshText.{mesh_text};
    ghost use Rattle.vtk_legacy.specs.Reader.{HasRead, fed_len, fault_of};
    ghost use Rattle.std.specs.Prelude.{◌≡◌, ◌<◌, ◌≤◌, ◌^◌, ◌++◌, ◌+◌, length, List, [], ℕ, OnOk, IfErr, IfSome, Some, None};

    /// A reader that was fed nothing. It takes no memory.
    #[tactic(auto, unfolding(crate::specs::Reader::HasRead, crate::specs::Reader::fault_of, crate::specs::Reader::fed_len))]
    pub fn new(alloc: Global) -> MeshReader
        ensures read { HasRead [] result }
        ensures good { fault_of result ≡ None }
        ensures len { fed_len result ≡ 0 }
    {
        MeshReader {
            tokens: Tokens::new(alloc),
            stage: Stage::Version,
            got: Gathered::new(alloc),
            failed: None,
        }
    }

    /// Takes the next piece of the text; all pieces together have less than 2^64 bytes. Its cost is linear in the
    /// piece.
    ///
    /// A fault is the first of each text that begins with the bytes fed so far. It may come later than the bytes that
    /// decide it, at the latest from `finish`. After a fault each later call gives the same one, `NoMemory` included.
    #[tactic(auto, unfolding(crate::specs::Reader::HasRead, crate::specs::Reader::fault_of, crate::specs::Reader::fed_len))]
    pub fn feed(&mut self, alloc: Global, piece: &[u8]) -> Result<(), MeshFault>
        requires { fed_len self.old + length piece.now < 2 ^ 64 }
        ensures read { (fed : List ℕ) → HasRead fed self.old → HasRead (fed ++ piece.now) self.new }
        ensures ok { OnOk result (fault_of self.new ≡ None) }
        ensures err { IfErr result (λ e. fault_of self.new ≡ Some e) }
        ensures sure { IfErr result (λ e. (fed : List ℕ) → HasRead fed self.old → IsFaultOfAll e (fed ++ piece.now)) }
        ensures again { IfSome (fault_of self.old) (λ e. result ≡ Err e) }
        ensures len { fed_len self.new ≤ fed_len self.old + length piece.now }
    {
        if let Some(e) = self.failed {
            return Err(e);
        }
        if let Stage::Passed = self.stage {
            return Ok(());
        }
        let outcome = self.feed_on(alloc, piece);
        if let Err(e) = outcome {
            self.failed = Some(e);
        }
        outcome
    }

    /// Takes the next piece, where no fault came before.
    #[tactic(auto, unfolding(crate::specs::Reader::HasRead, crate::specs::Reader::fault_of, crate::specs::Reader::fed_len))]
    fn feed_on(&mut self, alloc: Global, piece: &[u8]) -> Result<(), MeshFault>
        requires room { fed_len self.old + length piece.now < 2 ^ 64 }
        requires good { fault_of self.old ≡ None }
        ensures read { (fed : List ℕ) → HasRead fed self.old → IfErr result (λ e. IsFaultOfAll e (fed ++ piece.now)) }
        ensures ok { OnOk result ((fed : List ℕ) → HasRead fed self.old → HasRead (fed ++ piece.now) self.new) }
        ensures same { fault_of self.new ≡ None }
        ensures len { fed_len self.new ≤ fed_len self.old + length piece.now }
    {
        self.tokens.feed(alloc, piece)?;
        run(&mut self.tokens, &mut self.stage, &mut self.got)
    }

    /// Ends the text: its mesh, or its first fault. Its cost is that of going over the points and cells once.
    #[tactic(auto, unfolding(crate::specs::Reader::HasRead, crate::specs::Reader::fault_of))]
    pub fn finish(self, alloc: Global) -> Result<Mesh, MeshFault>
        ensures read { (fed : List ℕ) → HasRead fed self → Agrees (λ mesh. mesh) result (mesh_text fed) }
        ensures again { IfSome (fault_of self) (λ e. result ≡ Err e) }
    {
        let _ = alloc;
        let MeshReader {
            tokens,
            stage,
            got,
            failed,
        } = self;
        if let Some(e) = failed {
            return Err(e);
        }
        let (points, cells) = close(tokens, stage, got)?.into_lists();
        match Mesh::new(points, cells) {
            Some(mesh) => Ok(mesh),
            // Never: the points and cells of a mesh text are a mesh.
            None => fault(MeshKind::Truncated, 0),
        }
    }
}

/// The mesh of a whole text, or its first fault: one `feed` and `finish`. Its cost is linear in the text.
pub fn read_mesh(alloc: Global, text: &[u8]) -> Result<Mesh, MeshFault>
    ensures { Agrees (λ mesh. mesh) result (mesh_text text.now) }
{
    let mut reader = MeshReader::new(alloc);
    reader.feed(alloc, text)?;
    reader.finish(alloc)
}
