//! Laws over the definitions. Each is a function that does nothing and whose contract is the law.
ghost use Rattle.std.specs.Prelude.{◌≡◌, List, ◌∷◌, ◌++◌, Result, Ok, ℕ};
ghost use Rattle.run_script.specs.Faults.{Fault};
ghost use Rattle.run_script.specs.Scripts.{ScriptView, IsScript};
ghost use Rattle.script_format.specs.ScriptText.{Word, lines, words, script_text};
ghost use Rattle.script_format.specs.Printed.{AreWords, spaced, line_spelling, script_spelling, unlined};

/// Each text has an outcome, a script or its first fault, and only one.
pub fn texts_have_one_outcome()
    ensures one { (text : List ℕ) → (outcome : Result ScriptView Fault) × (script_text text ≡ outcome) }
    ensures only { (text : List ℕ) (a b : Result ScriptView Fault) → script_text text ≡ a → script_text text ≡ b
        → a ≡ b }
{}

/// The script of a text is within the limits, its numbers are in range, and its holds are closed.
pub fn texts_have_valid_scripts()
    ensures { (text : List ℕ) (script : ScriptView) → script_text text ≡ Ok script → IsScript script }
{}

/// A line that is printed of words is the first line of the text that it begins, and has these words.
pub fn printed_lines_are_read()
    ensures line { (w : Word) (ws : List Word) (rest : List ℕ) → AreWords (w ∷ ws)
        → lines (line_spelling (w ∷ ws) ++ rest) ≡ (w ++ spaced ws) ∷ lines rest }
    ensures words { (w : Word) (ws : List Word) → AreWords (w ∷ ws) → words (w ++ spaced ws) ≡ w ∷ ws }
{}

/// The text that is printed of a script is accepted, and is read as the same script but for the line numbers.
pub fn printed_scripts_are_read()
    ensures { (script : ScriptView) → IsScript script
        → (read : ScriptView) × (script_text (script_spelling script) ≡ Ok read) × (unlined read ≡ unlined script) }
{}

/// Two scripts have the same text where they are the same but for the line numbers, and only there. So what is read of
/// a printed text is printed as that text again.
pub fn printed_texts_tell_scripts_apart()
    ensures same { (a b : ScriptView) → unlined a ≡ unlined b → script_spelling a ≡ script_spelling b }
    ensures only { (a b : ScriptView) → IsScript a → IsScript b → script_spelling a ≡ script_spelling b
        → unlined a ≡ unlined b }
    ensures again { (script read : ScriptView) → IsScript script → script_text (script_spelling script) ≡ Ok read
        → script_spelling read ≡ script_spelling script }
{}
