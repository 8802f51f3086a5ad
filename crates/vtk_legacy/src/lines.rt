//! Lines: the first two, and those of METADATA.
ghost use Rattle.std.specs.Prelude.{◌≡◌, Ok};
ghost use Rattle.oct_text.specs.Rest.{Left, after_line};
ghost use Rattle.oct_text.specs.Line.{IsLine};
ghost use Rattle.vtk_legacy.specs.MeshText.{version_front};
ghost use Rattle.vtk_legacy.specs.Outcome.{Agrees};
ghost use Rattle.vtk_legacy.specs.Kept.{Parts};
ghost use Rattle.vtk_legacy.specs.Machine.{Advances};

use crate::fault::{MeshFault, MeshKind};
use crate::gathered::{CellForm, Gathered};
use crate::stage::{Section, Stage};
use crate::values::fault;
use crate::version::{form, is_magic};
use oct_text::{LineTaken, Skipped, Tokens};

/// The form of the cells that the first line stands for.
fn form_of_line(line: &[u8]) -> Result<CellForm, MeshFault>
    ensures { (l : Left) → Agrees (λ f. (f, after_line l)) result (version_front l (IsLine line.now)) }
{
    if !is_magic(line) {
        return fault(MeshKind::Magic, 0);
    }
    match form(&line[23..]) {
        Some(form) => Ok(form),
        None => fault(MeshKind::Version, 23),
    }
}

/// Takes the first line.
pub fn take_version(
    tokens: &mut Tokens,
    stage: &mut Stage,
    got: &mut Gathered,
) -> Result<bool, MeshFault>
    requires { stage.old ≡ Stage.Version }
    ensures { Advances stage.old got.old tokens.old result stage.new got.new tokens.new }
{
    match tokens.line(256) {
        LineTaken::Line { place: _, text } => {
            let form = form_of_line(text)?;
            got.set_form(form);
            *stage = Stage::Title;
            Ok(true)
        }
        LineTaken::Long { place: _ } => fault(MeshKind::Magic, 0),
        LineTaken::More => Ok(false),
        LineTaken::End { place: _ } => Ok(false),
    }
}

/// Takes the second line.
pub fn take_title(tokens: &mut Tokens, stage: &mut Stage) -> Result<bool, MeshFault>
    requires { stage.old ≡ Stage.Title }
    ensures { (got : Parts) → Advances stage.old got tokens.old result stage.new got tokens.new }
{
    match tokens.line(256) {
        LineTaken::Line { place: _, text: _ } => {
            *stage = Stage::Format;
            Ok(true)
        }
        LineTaken::Long { place } => fault(MeshKind::Title, place),
        LineTaken::More => Ok(false),
        LineTaken::End { place: _ } => Ok(false),
    }
}

/// Passes the rest of the line behind METADATA.
pub fn skip_rest(tokens: &mut Tokens, section: Section, stage: &mut Stage) -> bool
    requires { stage.old ≡ Stage.MetadataLine section }
    ensures { (got : Parts) → Advances stage.old got tokens.old (Ok result) stage.new got tokens.new }
{
    match tokens.skip_line() {
        Skipped::Blank | Skipped::Text => {
            *stage = Stage::MetadataLines { section };
            true
        }
        Skipped::More | Skipped::End => false,
    }
}

/// Passes a line of METADATA.
pub fn skip_one(tokens: &mut Tokens, section: Section, stage: &mut Stage) -> bool
    requires { stage.old ≡ Stage.MetadataLines section }
    ensures { (got : Parts) → Advances stage.old got tokens.old (Ok result) stage.new got tokens.new }
{
    match tokens.skip_line() {
        Skipped::Blank => {
            *stage = Stage::Between { section };
            true
        }
        Skipped::Text => true,
        Skipped::More | Skipped::End => false,
    }
}
