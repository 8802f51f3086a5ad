//! Reading a file in pieces.
ghost use Rattle.std.specs.Prelude.{◌≡◌, ℕ, ◌+◌, ◌<◌, ◌≤◌, ◌^◌, List, [], ◌++◌, length, min, IfOk, OnOk};
ghost use Rattle.std.specs.Io.KnownBytes.{IsAtEnd};
ghost use Rattle.oct_edge.specs.Causes.{Rose};
ghost use Rattle.octopus.specs.declared.status.Status.TheVariants.{ReadFault, TooLong};
ghost use Rattle.octopus.specs.Refusals.{status_of_refusal};
ghost use Rattle.octopus.specs.Reading.{Feeds, HasTaken, HasFed, Holds, IsTaken};
ghost use Rattle.octopus.specs.Failures.{RisesOnce, EndsAs};
ghost use Rattle.octopus.specs.Opened.{limit_of};
ghost use Rattle.octopus.specs.Outcomes.{status_of, IfRefused, Reads};

use crate::outcome::Early;
use crate::refusal::Refusal;
use mesh_base::NoMemory;
use oct_edge::Folder;
use std::alloc::Global;

// How much is read at once, at most.
const PIECE: usize = 65536;

/// What takes the bytes of a file, piece by piece.
pub trait Intake {
    /// It was given these bytes.
    ghost holds: { Self → List ℕ → Type 0 };

    /// How many bytes it was given, at most.
    ghost size: { Self → ℕ };

    fn take(&mut self, alloc: Global, piece: &[u8]) -> Result<(), NoMemory>
        requires { size self.old + length piece.now < 2 ^ 64 }
        ensures holds { OnOk result ((given : List ℕ) → holds self.old given → holds self.new (given ++ piece.now)) }
        ensures size { size self.new ≤ size self.old + length piece.now };
}

// Reads a piece and gives it on.
fn feed_piece<F: Folder, I: Intake>(
    alloc: Global,
    folder: &mut F,
    buf: &mut [u8],
    taker: &mut I,
) -> Result<usize, Early>
    requires room { 0 < length buf.old }
    requires fits { I.size taker.old + length buf.old < 2 ^ 64 }
    ensures fed { (given : List ℕ) → I.holds taker.old given
        → IfOk result (λ count. Feeds I.holds (F.rest folder.old) (F.rest folder.new) given taker.new count) }
    ensures len { IfOk result (λ count. (count ≤ length buf.new) × (I.size taker.new ≤ I.size taker.old + count)) }
    ensures files { F.files folder.new ≡ F.files folder.old }
    ensures opened { F.opened folder.new ≡ F.opened folder.old }
    ensures later { F.faults folder.old ≤ F.faults folder.new }
    ensures cause { status_of result ≡ ReadFault → Rose (F.faults folder.old) (F.faults folder.new) }
    ensures once { RisesOnce (F.faults folder.old) (F.faults folder.new) }
    ensures ends { EndsAs ReadFault (status_of result) (F.faults folder.old) (F.faults folder.new) }
    ensures accepts { IfRefused result (λ _. ⊥) }
{
    let count = folder.read(buf)?;
    taker.take(alloc, &buf[..count])?;
    Ok(count)
}

// Feeds the rest of the current file, or one byte more than the limit. Says whether it ended.
fn feed_file<F: Folder, I: Intake>(
    alloc: Global,
    folder: &mut F,
    limit: u64,
    buf: &mut [u8],
    taker: &mut I,
) -> Result<bool, Early>
    requires room { 0 < length buf.old }
    requires small { limit + length buf.old < 2 ^ 63 }
    requires new { I.holds taker.old [] }
    requires none { I.size taker.old ≡ 0 }
    ensures fed { IfOk result (λ whole. HasFed I.holds (F.rest folder.old) (F.rest folder.new) taker.new limit whole) }
    ensures files { F.files folder.new ≡ F.files folder.old }
    ensures opened { F.opened folder.new ≡ F.opened folder.old }
    ensures later { F.faults folder.old ≤ F.faults folder.new }
    ensures cause { status_of result ≡ ReadFault → Rose (F.faults folder.old) (F.faults folder.new) }
    ensures once { RisesOnce (F.faults folder.old) (F.faults folder.new) }
    ensures ends { EndsAs ReadFault (status_of result) (F.faults folder.old) (F.faults folder.new) }
    ensures accepts { IfRefused result (λ _. ⊥) }
{
    let mut taken: u64 = 0;
    while taken <= limit {
        let room = room_of(limit + 1 - taken, buf.len());
        let count = feed_piece(alloc, folder, &mut buf[..room], taker)?;
        if count == 0 {
            return Ok(true);
        }
        taken += count as u64;
    }
    Ok(false)
}

// The smaller of what may still be taken and the room that there is.
fn room_of(left: u64, room: usize) -> usize
    ensures { result ≡ min left room }
{
    left.min(room as u64) as usize
}

// The room for a piece.
fn make_buffer(alloc: Global) -> Result<Vec<u8>, NoMemory>
    ensures { IfOk result (λ buf. (0 < length buf.items) × (length buf.items < 2 ^ 32)) }
{
    let buf = vec![in alloc; 0u8; PIECE]?;
    Ok(buf)
}

/// Gives a whole file to what takes its bytes. A file of more than `limit` bytes is refused as `too_long`, once one
/// byte more was read. The file is opened once and read once, in pieces of at most 65,536 bytes.
#[tactic(auto, using(crate::proofs::Known::opened_once))]
pub fn read_file<F: Folder, I: Intake>(
    alloc: Global,
    name: &str,
    folder: &mut F,
    limit: u64,
    too_long: Refusal,
    taker: &mut I,
) -> Result<(), Early>
    requires small { limit ≤ 2 ^ 30 }
    requires long { status_of_refusal too_long ≡ TooLong }
    requires limit { limit_of too_long ≡ limit }
    requires new { I.holds taker.old [] }
    requires none { I.size taker.old ≡ 0 }
    ensures reads { Reads F.files F.rest F.faults F.opened 1 folder.old folder.new result
        (λ files. IsTaken I.holds (files name.now) limit too_long taker.new result) }
    ensures refused { IfRefused result (λ why. why ≡ too_long) }
    ensures whole { OnOk result (Holds I.holds taker.new limit × IsAtEnd (F.rest folder.new)) }
{
    let mut buf = make_buffer(alloc)?;
    folder.select(name)?;
    if feed_file(alloc, folder, limit, &mut buf, taker)? {
        Ok(())
    } else {
        Err(Early::Refused { why: too_long })
    }
}
