//! Which cells are asked for.
ghost use Rattle.std.specs.Prelude.{◌≡◌};
ghost use Rattle.cell_box.specs.Cells.{least_of};

/// Which cells are asked for, where a list of vertices is given.
#[derive(Clone, Copy, Debug, PartialEq, Eq)]
pub enum How {
    /// The cells all of whose corners are in the list.
    Whole,
    /// The cells at least one of whose corners is in the list.
    Touching,
}

impl How {
    // How many corners of such a cell are in the list, at least.
    pub(crate) fn least(self) -> usize
        ensures { result ≡ least_of self }
    {
        match self {
            How::Whole => 4,
            How::Touching => 1,
        }
    }
}
