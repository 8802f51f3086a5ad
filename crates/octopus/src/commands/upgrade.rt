//! The command `upgrade`.
ghost use Rattle.std.specs.Prelude.{◌≡◌, IfOk, Some};
ghost use Rattle.script_format.specs.Printed.{script_spelling};
ghost use Rattle.command_words.specs.declared.words.Command.TheVariants.{Upgrade};
ghost use Rattle.octopus.specs.Due.{due_of, upgraded};
ghost use Rattle.octopus.specs.Outcomes.{Owes};

use crate::files::load_script;
use crate::outcome::Early;
use mesh_base::NoMemory;
use oct_edge::Folder;
use run_script::Script;
use script_format::print_script;
use std::alloc::Global;

// The text of the script in version 2.
fn upgraded_text(alloc: Global, script: Script) -> Result<Vec<u8>, NoMemory>
    ensures { IfOk result (λ text. text.items ≡ script_spelling (upgraded script)) }
{
    let mut text = Vec::new(alloc);
    print_script(alloc, &script.upgraded(), &mut text)?;
    Ok(text)
}

/// Reads the script and prints it in version 2.
pub fn run_upgrade<F: Folder>(alloc: Global, script: &str, folder: &mut F) -> Result<Vec<u8>, Early>
    ensures { Owes F.files F.rest F.faults F.opened 1 folder.old folder.new result
        (due_of (Some (Upgrade script.now))) }
{
    let script = load_script(alloc, script, folder)?;
    Ok(upgraded_text(alloc, script)?)
}
