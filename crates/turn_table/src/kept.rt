// What a locked value means to the lock.
ghost use Rattle.std.specs.Prelude.{ℕ, List, ◌++◌};

/// A value whose history grows by one entry in each turn.
///
/// All members are for the proofs: an impl costs nothing when it runs.
pub trait Kept: Drop + Send {
    /// What never changes of a value.
    type Theme;

    /// What one turn adds to the history.
    type Entry;

    ghost theme: { Self → Self.Theme };

    ghost history: { Self → List Self.Entry };

    // The number of the seat that made an entry.
    ghost maker: { Self.Entry → ℕ };

    // The histories that are allowed under a theme.
    ghost fits: { Self.Theme → List Self.Entry → Type 0 };

    // Whether a word is true of a history.
    ghost says: { List Self.Entry → ℕ → Type 0 };

    // The word 0 is true of every allowed history.
    ghost says_nothing: { (t : Self.Theme) (h : List Self.Entry) → fits t h → says h 0 };

    // What a word says of a history stays true of each longer allowed one.
    ghost says_longer: { (t : Self.Theme) (h more : List Self.Entry) (word : ℕ) → fits t (h ++ more) → says h word
        → says (h ++ more) word };
}
