//! Scripts printed.
ghost use Rattle.std.specs.Prelude.{◌≡◌, [], ◌∷◌, ◌++◌, Ok, OnOk, OnErr, IfOk, map, flat_map, codes};
ghost use Rattle.std.specs.Fmt.{signed_decimal};
ghost use Rattle.script_format.specs.Printed.{spaced, line_spelling, edit_words, kernel_words, item_words, edit_line, item_line, plan_spelling, session_spelling, script_spelling, unlined};
ghost use Rattle.run_script.specs.Scripts.{ScriptView, IsScript};
ghost use Rattle.script_format.specs.ScriptText.{script_text};

use mesh_base::{Axis, BoxQ, Edit, Kernel};
use oct_text::{NoMemory, put_number, put_text};
use run_script::{Item, ItemList, LinedEdit, Plan, Script};
use std::alloc::Global;

// Appends numbers, each behind a space.
fn put_values(alloc: Global, out: &mut Vec<u8>, values: &[i64]) -> Result<(), NoMemory>
    ensures { OnOk result (out.new.items ≡ out.old.items ++ spaced (map signed_decimal values.now)) }
{
    for value in values {
        put_text(alloc, out, b" ")?;
        put_number(alloc, out, *value)?;
    }
    Ok(())
}

// Appends a line of a word and numbers.
fn put_line(alloc: Global, out: &mut Vec<u8>, word: &[u8], values: &[i64]) -> Result<(), NoMemory>
    ensures { OnOk result (out.new.items ≡ out.old.items ++ line_spelling (word.now ∷ map signed_decimal values.now)) }
{
    put_text(alloc, out, word)?;
    put_values(alloc, out, values)?;
    put_text(alloc, out, b"\n")
}

// Appends the line of an edit.
fn put_edit(alloc: Global, out: &mut Vec<u8>, edit: &Edit) -> Result<(), NoMemory>
    ensures { OnOk result (out.new.items ≡ out.old.items ++ line_spelling (edit_words edit.now)) }
{
    match edit {
        Edit::Point { at } => {
            let values = [i64::from(at.x()), i64::from(at.y()), i64::from(at.z())];
            put_line(alloc, out, b"point", &values)
        }
        Edit::Add { corners } => {
            let [a, b, c, d] = *corners;
            let values = [i64::from(a), i64::from(b), i64::from(c), i64::from(d)];
            put_line(alloc, out, b"add", &values)
        }
        Edit::Remove { cell } => put_line(alloc, out, b"remove", &[i64::from(*cell)]),
        Edit::Split { cell, at } => {
            let values = [
                i64::from(*cell),
                i64::from(at.x()),
                i64::from(at.y()),
                i64::from(at.z()),
            ];
            put_line(alloc, out, b"split", &values)
        }
    }
}

// Appends the line of a motion.
fn put_kernel(alloc: Global, out: &mut Vec<u8>, kernel: &Kernel) -> Result<(), NoMemory>
    ensures { OnOk result (out.new.items ≡ out.old.items ++ line_spelling (kernel_words kernel.now)) }
{
    match kernel {
        Kernel::Stay => put_text(alloc, out, b"stay\n"),
        Kernel::Shift { dx, dy, dz } => {
            let values = [i64::from(*dx), i64::from(*dy), i64::from(*dz)];
            put_line(alloc, out, b"shift", &values)
        }
        Kernel::Pull { to, num, den } => {
            let values = [
                i64::from(to.x()),
                i64::from(to.y()),
                i64::from(to.z()),
                i64::from(*num),
                i64::from(*den),
            ];
            put_line(alloc, out, b"pull", &values)
        }
        Kernel::Shake { seed, amp } => {
            let values = [i64::from(*seed), i64::from(*amp)];
            put_line(alloc, out, b"shake", &values)
        }
        Kernel::Relax => put_text(alloc, out, b"relax\n"),
        Kernel::Turn { axis } => match axis {
            Axis::X => put_text(alloc, out, b"turn x\n"),
            Axis::Y => put_text(alloc, out, b"turn y\n"),
            Axis::Z => put_text(alloc, out, b"turn z\n"),
        },
    }
}

// The coordinates of a box: those of the low corner, and those of the high one.
fn box_values(area: &BoxQ) -> [i64; 6]
    ensures { result ≡ area.now.lo.0 ∷ area.now.lo.1 ∷ area.now.lo.2 ∷ area.now.hi.0 ∷ area.now.hi.1 ∷ area.now.hi.2
        ∷ [] }
{
    let lo = area.lo();
    let hi = area.hi();
    [
        i64::from(lo.x()),
        i64::from(lo.y()),
        i64::from(lo.z()),
        i64::from(hi.x()),
        i64::from(hi.y()),
        i64::from(hi.z()),
    ]
}

// Appends the line of an item.
fn put_item(alloc: Global, out: &mut Vec<u8>, item: &Item) -> Result<(), NoMemory>
    ensures { OnOk result (out.new.items ≡ out.old.items ++ item_line item.now) }
{
    match item {
        Item::Wait { line: _, step } => put_line(alloc, out, b"wait", &[i64::from(*step)]),
        Item::Ask { area } => put_line(alloc, out, b"box", &box_values(area)),
        Item::Hold => put_text(alloc, out, b"hold\n"),
        Item::Free => put_text(alloc, out, b"free\n"),
    }
}

// Appends the lines of edits.
fn put_edits(alloc: Global, out: &mut Vec<u8>, edits: &[LinedEdit]) -> Result<(), NoMemory>
    ensures { OnOk result (out.new.items ≡ out.old.items ++ flat_map edit_line edits.now) }
{
    for edit in edits {
        put_edit(alloc, out, &edit.edit)?;
    }
    Ok(())
}

// Appends the lines of plans.
fn put_plans(alloc: Global, out: &mut Vec<u8>, plans: &[Plan]) -> Result<(), NoMemory>
    ensures { OnOk result (out.new.items ≡ out.old.items ++ flat_map plan_spelling plans.now) }
{
    for plan in plans {
        put_edits(alloc, out, plan.edits.items())?;
        put_kernel(alloc, out, &plan.kernel)?;
    }
    Ok(())
}

// Appends the lines of items.
fn put_items(alloc: Global, out: &mut Vec<u8>, items: &[Item]) -> Result<(), NoMemory>
    ensures { OnOk result (out.new.items ≡ out.old.items ++ flat_map item_line items.now) }
{
    for item in items {
        put_item(alloc, out, item)?;
    }
    Ok(())
}

// Appends the lines of sessions.
fn put_sessions(alloc: Global, out: &mut Vec<u8>, sessions: &[ItemList]) -> Result<(), NoMemory>
    ensures { OnOk result (out.new.items ≡ out.old.items ++ flat_map session_spelling sessions.now) }
{
    for session in sessions {
        put_text(alloc, out, b"session\n")?;
        put_items(alloc, out, session.items())?;
    }
    Ok(())
}

// The text of a script.
#[tactic(auto, unfolding(crate::specs::Printed::script_spelling))]
fn spell(alloc: Global, script: &Script) -> Result<Vec<u8>, NoMemory>
    ensures text { IfOk result (λ text. text.items ≡ script_spelling script.now) }
    ensures valid { IfOk result (λ text. IsScript script.now) }
{
    let mut text = Vec::new(alloc);
    let version = i64::from(script.version());
    put_line(alloc, &mut text, b"octopus script", &[version])?;
    put_plans(alloc, &mut text, script.plans())?;
    put_sessions(alloc, &mut text, script.sessions())?;
    put_text(alloc, &mut text, b"end\n")?;
    Ok(text)
}

/// Appends the script's text: the first line, each plan's edits and its motion, each session with its items, and `end`,
/// with single spaces, numbers in decimal and LF at each line's end. After an error `out` holds what it held.
///
/// `read_script` accepts the text, and gives the same script but for the line numbers.
///
/// The text is made beside `out` and then copied once.
pub fn print_script(alloc: Global, script: &Script, out: &mut Vec<u8>) -> Result<(), NoMemory>
    ensures ok { OnOk result (out.new.items ≡ out.old.items ++ script_spelling script.now) }
    ensures err { OnErr result (out.new.items ≡ out.old.items) }
    ensures read_again { OnOk result ((read : ScriptView) × (script_text (script_spelling script.now) ≡ Ok read)
        × (unlined read ≡ unlined script.now)) }
{
    let text = spell(alloc, script)?;
    put_text(alloc, out, &text)
}
