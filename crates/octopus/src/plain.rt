//! The commands that need no thread.
ghost use Rattle.std.specs.Prelude.{◌≡◌, ◌≢◌, ◌+◌, ◌≤◌, ◌⊎◌, map, IfSome, Some, None};
ghost use Rattle.std.specs.String.{string_bytes};
ghost use Rattle.std.specs.Io.KnownBytes.{Keeps, IsAtEnd};
ghost use Rattle.oct_edge.specs.Causes.{Rose};
ghost use Rattle.command_words.specs.Words.{command_of};
ghost use Rattle.octopus.specs.Due.{due, due_of_words};
ghost use Rattle.octopus.specs.Failures.{RisesOnce, EndsAs, WritesNone};
ghost use Rattle.octopus.specs.Opened.{most_opened, ReadsPast};
ghost use Rattle.octopus.specs.Written.{Gives, IsBadText, settled};
ghost use Rattle.octopus.specs.Outcomes.{Reads, Settles, status_of};

use crate::commands::box_answer::run_box;
use crate::commands::cells::run_cells;
use crate::commands::gen_block::block_text;
use crate::commands::rings::run_rings;
use crate::commands::scan::run_scan;
use crate::commands::step::run_step;
use crate::commands::surface::run_surface;
use crate::commands::upgrade::run_upgrade;
use crate::deliver::tell;
use crate::outcome::Early;
use crate::refusal::Refusal;
use crate::status::Status;
use command_words::{Command, read_command};
use oct_edge::{Folder, Sink};
use std::alloc::Global;

// What is to be written. Nothing was written yet.
#[tactic(auto, unfolding(crate::specs::Due::due, crate::specs::Opened::most_opened))]
fn prepare<F: Folder>(alloc: Global, words: &[String], folder: &mut F) -> Result<Vec<u8>, Early>
    ensures reads { Reads F.files F.rest F.faults F.opened
        (most_opened (map string_bytes words.now) (F.files folder.old)) folder.old folder.new result
        (λ files. Settles (due (map string_bytes words.now) files) result) }
    ensures at_once { IfSome (due_of_words (command_of (map string_bytes words.now)))
        (λ owed. Settles owed result × (status_of result ≢ Status.ReadFault)) }
    ensures usage { status_of result ≡ Status.Usage → command_of (map string_bytes words.now) ≡ None }
{
    let Some(command) = read_command(words) else {
        return Err(Early::Refused {
            why: Refusal::Usage,
        });
    };
    match command {
        Command::Scan { mesh, area } => run_scan(alloc, mesh, &area, folder),
        Command::Surface { mesh } => run_surface(alloc, mesh, folder),
        Command::Gen { side } => Ok(block_text(alloc, side)?),
        Command::Step { mesh, script, step } => run_step(alloc, mesh, script, step, folder),
        Command::Upgrade { script } => run_upgrade(alloc, script, folder),
        Command::Box { mesh, area } => run_box(alloc, mesh, &area, folder),
        Command::Cells { mesh, area, how } => run_cells(alloc, mesh, &area, how, folder),
        Command::Rings { mesh, area, most } => run_rings(alloc, mesh, &area, most, folder),
    }
}

/// Does what the words say, reads the files that they name from `folder`, and writes to `sink` the
/// text that is due, or the one line of the refusal that is due. It always returns: a file is read to
/// its end or to one byte past its limit, in pieces of at most 65,536 bytes.
///
/// A script is looked for only once the mesh was accepted.
///
/// Its time is that of reading the files once and of the work: for `step` that of each step up to the one that is asked
/// for, for `box`, `cells` and `rings` that of the mesh's tables and of one answer. It holds the mesh with its tables,
/// the bytes of a script while they are read, and the text written.
pub fn plain<F: Folder, K: Sink>(
    alloc: Global,
    words: &[String],
    folder: &mut F,
    sink: &mut K,
) -> Status
    // Each status comes only where it is due, and what was written is what is due, or its front.
    ensures told { IfSome (F.files folder.old) (λ files.
        Gives (due (map string_bytes words.now) files) result (K.written sink.old) (K.written sink.new)) }

    // The same where the words alone decide, whether or not the folder tells its files.
    ensures at_once { IfSome (due_of_words (command_of (map string_bytes words.now)))
        (λ owed. Gives owed result (K.written sink.old) (K.written sink.new) × (result ≢ Status.ReadFault)) }

    ensures usage { result ≡ Status.Usage → command_of (map string_bytes words.now) ≡ None }
    ensures read_fault { result ≡ Status.ReadFault
        → Rose (F.faults folder.old) (F.faults folder.new) × Keeps (K.written sink.old) (K.written sink.new) }
    ensures write_fault { result ≡ Status.WriteFault → Rose (K.faults sink.old) (K.faults sink.new) }

    // A call that failed is the last one that fails, and is told.
    ensures read_once { RisesOnce (F.faults folder.old) (F.faults folder.new) }
    ensures read_ends { EndsAs Status.ReadFault result (F.faults folder.old) (F.faults folder.new) }
    ensures write_once { RisesOnce (K.faults sink.old) (K.faults sink.new) }
    ensures write_ends { EndsAs Status.WriteFault result (K.faults sink.old) (K.faults sink.new) }

    // Memory is refused before the first byte is written.
    ensures memory { WritesNone result (K.written sink.old) (K.written sink.new) }

    // A file with a fault is read to its end all the same, and of one that is too long exactly one byte past its limit
    // is read.
    ensures read_whole { IsBadText result → IsAtEnd (F.rest folder.new) }
    ensures read_past { ReadsPast (F.files folder.old) (due (map string_bytes words.now)) result (F.rest folder.new) }

    // Files are opened no more often than the words name some, and once where the folder tells its files and the mesh
    // isn't accepted.
    ensures opens { F.opened folder.new ≤ F.opened folder.old
        + most_opened (map string_bytes words.now) (F.files folder.old) }

    // Where the outside did not fail, the status is what is due, or want of memory.
    ensures complete { IfSome (F.files folder.old)
        (λ files. ¬ (Rose (F.faults folder.old) (F.faults folder.new))
        → ¬ (Rose (K.faults sink.old) (K.faults sink.new))
        → (result ≡ Status.Memory) ⊎ (settled (due (map string_bytes words.now) files) ≡ Some result)) }
{
    let outcome = prepare(alloc, words, folder);
    tell(alloc, outcome, sink)
}
