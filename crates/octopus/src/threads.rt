//! All commands, with those that play a job by threads.
ghost use Rattle.std.specs.Prelude.{◌≡◌, ◌≢◌, ◌+◌, ◌≤◌, ◌⊎◌, map, IfSome, None};
ghost use Rattle.std.specs.String.{string_bytes};
ghost use Rattle.std.specs.Io.KnownBytes.{Keeps, IsAtEnd};
ghost use Rattle.oct_edge.specs.Causes.{Rose};
ghost use Rattle.octopus.specs.Failures.{RisesOnce, EndsAs, WritesNone};
ghost use Rattle.octopus.specs.Opened.{most_of_played, most_opened_with_threads, ReadsPast};
ghost use Rattle.run_script.specs.Jobs.{JobView};
ghost use Rattle.command_words.specs.Words.{command_of, played_of, played_as};
ghost use Rattle.octopus.specs.Due.{Play, Watched, due_of_played, due_with_threads, due_of_played_words, due_at_once};
ghost use Rattle.octopus.specs.Written.{Gives, WritesReport, WritesWatches, IsBadText, settled};
ghost use Rattle.octopus.specs.Outcomes.{Owes, Settles, status_of};

use crate::commands::demo::run_demo;
use crate::commands::run::play_script;
use crate::commands::watch::watch_script;
use crate::deliver::tell;
use crate::outcome::Early;
use crate::plain::plain;
use crate::status::Status;
use command_words::{Played, read_played};
use oct_edge::{Folder, Gate, Sink};
use std::alloc::Global;
use std::marker::Sync;
use std::sync::Wait;
use std::thread::Threads;

// What is to be written for what is played. Nothing was written yet.
fn prepare_played<R: Threads + Wait + Sync, F: Folder, G: Gate>(
    rt: &R,
    alloc: Global,
    played: Played<&str>,
    folder: &mut F,
    gate: &G,
) -> Result<Vec<u8>, Early>
    ensures owes { Owes F.files F.rest F.faults F.opened
        (most_of_played (played_as (λ name. name.now) played.entry)
        (F.files folder.old)) folder.old folder.new result (due_of_played (played_as (λ name. name.now) played.entry)) }
    ensures at_once { IfSome (due_of_played_words (played_as (λ name. name.now) played.entry))
        (λ owed. Settles owed result × (status_of result ≢ Status.ReadFault)) }
{
    match played {
        Played::Run { mesh, script } => play_script(rt, alloc, mesh, script, folder, gate),
        Played::Demo { side, seed } => Ok(run_demo(rt, alloc, side, seed, gate)?),
        Played::Watch { mesh, script } => watch_script(rt, alloc, mesh, script, folder, gate),
    }
}

// The same as `octopus`, but for its last two clauses.
#[tactic(auto, unfolding(crate::specs::Due::due_with_threads, crate::specs::Opened::most_opened_with_threads))]
fn do_all<R: Threads + Wait + Sync, F: Folder, K: Sink, G: Gate>(
    rt: &R,
    alloc: Global,
    words: &[String],
    folder: &mut F,
    sink: &mut K,
    gate: &G,
) -> Status
    ensures told { IfSome (F.files folder.old) (λ files.
        Gives (due_with_threads (map string_bytes words.now) files) result (K.written sink.old) (K.written sink.new)) }
    ensures at_once { IfSome (due_at_once (map string_bytes words.now))
        (λ owed. Gives owed result (K.written sink.old) (K.written sink.new) × (result ≢ Status.ReadFault)) }
    ensures usage { result ≡ Status.Usage → (played_of (map string_bytes words.now) ≡ None)
        × (command_of (map string_bytes words.now) ≡ None) }
    ensures read_fault { result ≡ Status.ReadFault
        → Rose (F.faults folder.old) (F.faults folder.new) × Keeps (K.written sink.old) (K.written sink.new) }
    ensures write_fault { result ≡ Status.WriteFault → Rose (K.faults sink.old) (K.faults sink.new) }
    ensures read_once { RisesOnce (F.faults folder.old) (F.faults folder.new) }
    ensures read_ends { EndsAs Status.ReadFault result (F.faults folder.old) (F.faults folder.new) }
    ensures write_once { RisesOnce (K.faults sink.old) (K.faults sink.new) }
    ensures write_ends { EndsAs Status.WriteFault result (K.faults sink.old) (K.faults sink.new) }
    ensures memory { WritesNone result (K.written sink.old) (K.written sink.new) }
    ensures read_whole { IsBadText result → IsAtEnd (F.rest folder.new) }
    ensures read_past { ReadsPast (F.files folder.old) (due_with_threads (map string_bytes words.now)) result
        (F.rest folder.new) }
    ensures opens { F.opened folder.new ≤ F.opened folder.old
        + most_opened_with_threads (map string_bytes words.now) (F.files folder.old) }
    ensures complete { IfSome (F.files folder.old)
        (λ files. ¬ (Rose (F.faults folder.old) (F.faults folder.new))
        → ¬ (Rose (K.faults sink.old) (K.faults sink.new))
        → (result ≡ Status.Memory) ⊎ (settled (due_with_threads (map string_bytes words.now) files) ≡ Some result)) }
{
    let Some(played) = read_played(words) else {
        return plain(alloc, words, folder, sink);
    };
    let outcome = prepare_played(rt, alloc, played, folder, gate);
    tell(alloc, outcome, sink)
}

/// Does what the words say: `run MESH SCRIPT`, `watch MESH SCRIPT` and `demo N SEED` by threads, and all other commands
/// as `plain` does. Files are read from `folder`, and what is due is written to `sink`: the text whole, or the one line
/// of the refusal.
///
/// A run that is done has written the report of one whole legal history of published and pinned steps, for every mesh
/// file, script and interleaving (`headline`), and a watch what entered and left each box along such a history
/// (`watched`). The text is made whole before its first byte is written, so a run that memory or a read cuts short
/// writes nothing, and a write that fails leaves a front of such a report.
///
/// The workers of a run wait for each other, so nothing promises that the call returns. `gate` is called at certain
/// places of their work, by which a test may lead a run; a program passes `NoGate`. The memory is that of `plain`, with
/// the steps that are held at once, the answers, and the text.
pub fn octopus<R: Threads + Wait + Sync, F: Folder, K: Sink, G: Gate>(
    rt: &R,
    alloc: Global,
    words: &[String],
    folder: &mut F,
    sink: &mut K,
    gate: &G,
) -> Status
    // Each status comes only where it is due, and what was written is what is due, or its front.
    ensures told { IfSome (F.files folder.old) (λ files.
        Gives (due_with_threads (map string_bytes words.now) files) result (K.written sink.old) (K.written sink.new)) }

    // The same where the words alone decide, whether or not the folder tells its files.
    ensures at_once { IfSome (due_at_once (map string_bytes words.now))
        (λ owed. Gives owed result (K.written sink.old) (K.written sink.new) × (result ≢ Status.ReadFault)) }

    ensures usage { result ≡ Status.Usage → (played_of (map string_bytes words.now) ≡ None)
        × (command_of (map string_bytes words.now) ≡ None) }
    ensures read_fault { result ≡ Status.ReadFault
        → Rose (F.faults folder.old) (F.faults folder.new) × Keeps (K.written sink.old) (K.written sink.new) }
    ensures write_fault { result ≡ Status.WriteFault → Rose (K.faults sink.old) (K.faults sink.new) }

    // A call that failed is the last one that fails, and is told.
    ensures read_once { RisesOnce (F.faults folder.old) (F.faults folder.new) }
    ensures read_ends { EndsAs Status.ReadFault result (F.faults folder.old) (F.faults folder.new) }
    ensures write_once { RisesOnce (K.faults sink.old) (K.faults sink.new) }
    ensures write_ends { EndsAs Status.WriteFault result (K.faults sink.old) (K.faults sink.new) }

    // Memory is refused before the first byte is written.
    ensures memory { WritesNone result (K.written sink.old) (K.written sink.new) }

    // A file with a fault is read to its end all the same, and of one that is too long exactly one byte past its limit
    // is read.
    ensures read_whole { IsBadText result → IsAtEnd (F.rest folder.new) }
    ensures read_past { ReadsPast (F.files folder.old) (due_with_threads (map string_bytes words.now)) result
        (F.rest folder.new) }

    // Files are opened no more often than the words name some, and once where the folder tells its files and the mesh
    // isn't accepted.
    ensures opens { F.opened folder.new ≤ F.opened folder.old
        + most_opened_with_threads (map string_bytes words.now) (F.files folder.old) }

    // Where the outside did not fail, the status is what is due, or want of memory.
    ensures complete { IfSome (F.files folder.old)
        (λ files. ¬ (Rose (F.faults folder.old) (F.faults folder.new))
        → ¬ (Rose (K.faults sink.old) (K.faults sink.new))
        → (result ≡ Status.Memory) ⊎ (settled (due_with_threads (map string_bytes words.now) files) ≡ Some result)) }

    // A run that is done has written the report of one whole history: that which the journal lines of the bytes added
    // print.
    ensures headline { IfSome (F.files folder.old)
        (λ files. (job : JobView) → due_with_threads (map string_bytes words.now) files ≡ Play job
        → result ≡ Status.Done → WritesReport job (K.written sink.old) (K.written sink.new)) }

    // The same of the watches of a run: they are those of the history that their own journal lines print.
    ensures watched { IfSome (F.files folder.old)
        (λ files. (job : JobView) → due_with_threads (map string_bytes words.now) files ≡ Watched job
        → result ≡ Status.Done → WritesWatches job (K.written sink.old) (K.written sink.new)) }
{
    do_all(rt, alloc, words, folder, sink, gate)
}
