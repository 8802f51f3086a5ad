//! The first words of lines, and where they may stand.

ghost use Rattle.std.specs.Prelude.{◌≡◌};
ghost use Rattle.script_format.specs.ScriptText.{spelled, commands, words_of, can_free};

use crate::row::{Command, Standing};
use run_script::ScriptKind;

/// The command of this version that is spelled so.
pub fn command(version: u32, word: &[u8]) -> Result<Command, ScriptKind>
    ensures { result ≡ spelled (commands version) word.now }
{
    if word == b"point".as_slice() {
        return Ok(Command::Point);
    }
    if word == b"add".as_slice() {
        return Ok(Command::Add);
    }
    if word == b"remove".as_slice() {
        return Ok(Command::Remove);
    }
    if word == b"split".as_slice() {
        return Ok(Command::Split);
    }
    if word == b"stay".as_slice() {
        return Ok(Command::Stay);
    }
    if word == b"shift".as_slice() {
        return Ok(Command::Shift);
    }
    if word == b"pull".as_slice() {
        return Ok(Command::Pull);
    }
    if word == b"shake".as_slice() {
        return Ok(Command::Shake);
    }
    if word == b"relax".as_slice() {
        return Ok(Command::Relax);
    }
    if word == b"turn".as_slice() {
        return Ok(Command::Turn);
    }
    session_command(version, word)
}

ghost use Rattle.script_format.specs.ScriptText.{session_commands};

// A command of sessions that is spelled so, or `end`.
fn session_command(version: u32, word: &[u8]) -> Result<Command, ScriptKind>
    ensures { result ≡ spelled (session_commands version) word.now }
{
    if word == b"session".as_slice() {
        return Ok(Command::Session);
    }
    if word == b"wait".as_slice() {
        return Ok(Command::Wait);
    }
    if word == b"box".as_slice() {
        return Ok(Command::Box);
    }
    if word == b"end".as_slice() {
        return Ok(Command::End);
    }
    if version == 2 {
        if word == b"hold".as_slice() {
            return Ok(Command::Hold);
        }
        if word == b"free".as_slice() {
            return Ok(Command::Free);
        }
    }
    Err(ScriptKind::Word)
}

impl Command {
    ghost use Rattle.std.specs.Prelude.{◌≡◌};
    ghost use Rattle.script_format.specs.ScriptText.{words_of, adds_edit, adds_move, adds_item, ends_steps, ends_turns, is_free, is_session_line, is_box_line};

    /// How many words a line of it has.
    pub fn words(self) -> usize
        ensures { result ≡ words_of self }
    {
        match self {
            Command::Point => 4,
            Command::Add => 5,
            Command::Remove => 2,
            Command::Split => 5,
            Command::Stay => 1,
            Command::Shift => 4,
            Command::Pull => 6,
            Command::Shake => 3,
            Command::Relax => 1,
            Command::Turn => 2,
            Command::Session => 1,
            Command::Wait => 2,
            Command::Box => 7,
            Command::Hold => 1,
            Command::Free => 1,
            Command::End => 1,
        }
    }

    fn adds_edit(self) -> bool
        ensures { result ≡ adds_edit self }
    {
        match self {
            Command::Point | Command::Add | Command::Remove | Command::Split => true,
            _ => false,
        }
    }

    fn adds_move(self) -> bool
        ensures { result ≡ adds_move self }
    {
        match self {
            Command::Stay
            | Command::Shift
            | Command::Pull
            | Command::Shake
            | Command::Relax
            | Command::Turn => true,
            _ => false,
        }
    }

    fn adds_item(self) -> bool
        ensures { result ≡ adds_item self }
    {
        match self {
            Command::Wait | Command::Box | Command::Hold | Command::Free => true,
            _ => false,
        }
    }

    fn ends_steps(self) -> bool
        ensures { result ≡ ends_steps self }
    {
        match self {
            Command::Session | Command::End => true,
            _ => false,
        }
    }

    fn ends_turns(self) -> bool
        ensures { result ≡ ends_turns self }
    {
        match self {
            Command::Wait | Command::Hold | Command::Session | Command::End => true,
            _ => false,
        }
    }

    fn is_free(self) -> bool
        ensures { result ≡ is_free self }
    {
        match self {
            Command::Free => true,
            _ => false,
        }
    }

    fn is_session(self) -> bool
        ensures { result ≡ is_session_line self }
    {
        match self {
            Command::Session => true,
            _ => false,
        }
    }

    fn is_box(self) -> bool
        ensures { result ≡ is_box_line self }
    {
        match self {
            Command::Box => true,
            _ => false,
        }
    }
}

fn can_free(hold: Option<u32>) -> bool
    ensures { result ≡ can_free hold }
{
    match hold {
        None => false,
        Some(boxes) => boxes > 0,
    }
}

impl Standing {
    ghost use Rattle.std.specs.Prelude.{◌≡◌};
    ghost use Rattle.script_format.specs.ScriptText.{is_misplaced, is_one_too_many};

    /// Whether a line with this command can't stand here.
    pub fn is_misplaced(&self, c: Command) -> bool
        ensures { result ≡ is_misplaced self.now c }
    {
        (self.in_sessions && (c.adds_edit() || c.adds_move()))
            || (!self.in_sessions && c.adds_item())
            || (self.edits_wait && c.ends_steps())
            || (self.hold.is_some() && c.ends_turns())
            || (!can_free(self.hold) && c.is_free())
            || self.has_ended
    }

    /// Whether a line with this command is one more than a script may have.
    pub fn is_one_too_many(&self, c: Command) -> bool
        ensures { result ≡ is_one_too_many self.now c }
    {
        (c.adds_move() && self.steps >= 10_000)
            || (c.adds_edit() && self.edits >= 1_000_000)
            || (c.is_session() && self.sessions >= 8)
            || (c.is_box() && self.boxes >= 100_000)
    }
}
