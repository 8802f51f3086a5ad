//! The rows that lines are.
ghost use Rattle.std.specs.Prelude.{◌≡◌};
ghost use Rattle.script_format.specs.declared.row.Command.TheVariants as commands;
ghost use Rattle.script_format.specs.ScriptText.{words, row_of, row_of_line, checked_row, is_comment};

use crate::commands::command;
use crate::cuts::{count_words, next_word};
use crate::row::{Command, Row, Standing};
use crate::values::{
    area_between, axis_at, corners_at, index_at, natural_at, place_at, point, signed_at,
};
use mesh_base::{Edit, Kernel};
use run_script::{Item, LinedEdit, ScriptKind};

fn edit_row(line: u32, edit: Edit) -> Row
    ensures { result ≡ Row.Edit (record { line = line; edit = edit }) }
{
    Row::Edit {
        edit: LinedEdit { line, edit },
    }
}

#[tactic(auto, unfolding(crate::specs::ScriptText::row_of))]
fn split_row(line: u32, values: &[u8]) -> Result<Row, ScriptKind>
    ensures { result ≡ row_of line commands.Split (words values.now) }
{
    let cell = index_at(values)?;
    let at = place_at(cell.rest)?;
    let cell = cell.value;
    let at = point(at);
    Ok(edit_row(line, Edit::Split { cell, at }))
}

#[tactic(auto, unfolding(crate::specs::ScriptText::row_of))]
fn shift_row(line: u32, values: &[u8]) -> Result<Row, ScriptKind>
    ensures { result ≡ row_of line commands.Shift (words values.now) }
{
    let _ = line;
    let by = place_at(values)?;
    let kernel = Kernel::Shift {
        dx: by.x,
        dy: by.y,
        dz: by.z,
    };
    Ok(Row::Move { kernel })
}

#[tactic(auto, unfolding(crate::specs::ScriptText::row_of))]
fn pull_row(line: u32, values: &[u8]) -> Result<Row, ScriptKind>
    ensures { result ≡ row_of line commands.Pull (words values.now) }
{
    let _ = line;
    let to = place_at(values)?;
    let num = signed_at(to.rest, -1024, 1024)?;
    let den = signed_at(num.rest, 1, 1024)?;
    let kernel = Kernel::Pull {
        to: point(to),
        num: num.value,
        den: den.value,
    };
    Ok(Row::Move { kernel })
}

#[tactic(auto, unfolding(crate::specs::ScriptText::row_of))]
fn shake_row(line: u32, values: &[u8]) -> Result<Row, ScriptKind>
    ensures { result ≡ row_of line commands.Shake (words values.now) }
{
    let _ = line;
    let seed = natural_at(values, 65535)?;
    let amp = natural_at(seed.rest, 1000)?;
    let kernel = Kernel::Shake {
        seed: seed.value,
        amp: amp.value,
    };
    Ok(Row::Move { kernel })
}

#[tactic(auto, unfolding(crate::specs::ScriptText::row_of))]
fn box_row(line: u32, values: &[u8]) -> Result<Row, ScriptKind>
    ensures { result ≡ row_of line commands.Box (words values.now) }
{
    let _ = line;
    let lo = place_at(values)?;
    let hi = place_at(lo.rest)?;
    let area = area_between(point(lo), point(hi))?;
    let item = Item::Ask { area };
    Ok(Row::Does { item })
}

// The row of an edit, where the command is one.
#[tactic(auto, unfolding(crate::specs::ScriptText::row_of))]
fn point_row(line: u32, values: &[u8]) -> Result<Row, ScriptKind>
    ensures { result ≡ row_of line commands.Point (words values.now) }
{
    let at = point(place_at(values)?);
    Ok(edit_row(line, Edit::Point { at }))
}

#[tactic(auto, unfolding(crate::specs::ScriptText::row_of))]
fn add_row(line: u32, values: &[u8]) -> Result<Row, ScriptKind>
    ensures { result ≡ row_of line commands.Add (words values.now) }
{
    let corners = corners_at(values)?;
    Ok(edit_row(line, Edit::Add { corners }))
}

#[tactic(auto, unfolding(crate::specs::ScriptText::row_of))]
fn remove_row(line: u32, values: &[u8]) -> Result<Row, ScriptKind>
    ensures { result ≡ row_of line commands.Remove (words values.now) }
{
    let cell = index_at(values)?.value;
    Ok(edit_row(line, Edit::Remove { cell }))
}

#[tactic(auto, unfolding(crate::specs::ScriptText::row_of))]
fn turn_row(line: u32, values: &[u8]) -> Result<Row, ScriptKind>
    ensures { result ≡ row_of line commands.Turn (words values.now) }
{
    let _ = line;
    let axis = axis_at(values)?;
    let kernel = Kernel::Turn { axis };
    Ok(Row::Move { kernel })
}

#[tactic(auto, unfolding(crate::specs::ScriptText::row_of))]
fn wait_row(line: u32, values: &[u8]) -> Result<Row, ScriptKind>
    ensures { result ≡ row_of line commands.Wait (words values.now) }
{
    let step = natural_at(values, 10_000)?.value;
    let item = Item::Wait { line, step };
    Ok(Row::Does { item })
}

// The row of a line with this number, this command and these values.
#[tactic(auto, unfolding(crate::specs::ScriptText::row_of))]
fn row_of(line: u32, command: Command, values: &[u8]) -> Result<Row, ScriptKind>
    ensures { result ≡ row_of line command (words values.now) }
{
    match command {
        Command::Point => point_row(line, values),
        Command::Add => add_row(line, values),
        Command::Remove => remove_row(line, values),
        Command::Split => split_row(line, values),
        Command::Stay => Ok(Row::Move {
            kernel: Kernel::Stay,
        }),
        Command::Shift => shift_row(line, values),
        Command::Pull => pull_row(line, values),
        Command::Shake => shake_row(line, values),
        Command::Relax => Ok(Row::Move {
            kernel: Kernel::Relax,
        }),
        Command::Turn => turn_row(line, values),
        Command::Session => Ok(Row::Session),
        Command::Wait => wait_row(line, values),
        Command::Box => box_row(line, values),
        Command::Hold => Ok(Row::Does { item: Item::Hold }),
        Command::Free => Ok(Row::Does { item: Item::Free }),
        Command::End => Ok(Row::End),
    }
}

// The row of a line with this command, after the checks in their order.
fn checked_row(line: u32, at: &Standing, values: &[u8], command: Command) -> Result<Row, ScriptKind>
    ensures { result ≡ checked_row line at.now (words values.now) command }
{
    if at.is_misplaced(command) {
        return Err(ScriptKind::Order);
    }
    if count_words(values) + 1 != command.words() {
        return Err(ScriptKind::Word);
    }
    if at.is_one_too_many(command) {
        return Err(ScriptKind::Limit);
    }
    row_of(line, command, values)
}

// Whether the first word of a line begins a comment.
fn is_comment(word: &[u8]) -> bool
    ensures { result ≡ is_comment word.now }
{
    match word {
        [b'#', ..] => true,
        _ => false,
    }
}

/// The row of a line. None of a line without words, and none of a comment.
#[tactic(auto, unfolding(crate::specs::ScriptText::row_of_line))]
pub fn row_of_line(
    version: u32,
    line: u32,
    at: &Standing,
    text: &[u8],
) -> Result<Option<Row>, ScriptKind>
    ensures { result ≡ row_of_line version line at.now (words text.now) }
{
    let Some(word) = next_word(text) else {
        return Ok(None);
    };
    if is_comment(word.front) {
        return Ok(None);
    }
    let command = command(version, word.front)?;
    let row = checked_row(line, at, word.rest, command)?;
    Ok(Some(row))
}
