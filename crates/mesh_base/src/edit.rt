//! What a step changes: edits of the mesh, and a motion of its points.

use crate::point::Point;

/// A change of the mesh. A new point or cell comes at the end of its list, and a cell that goes leaves an absent entry,
/// so no number is ever given twice.
#[derive(Clone, Copy, Debug, PartialEq, Eq)]
pub enum Edit {
    /// Adds a point. No cell has it yet.
    Point { at: Point },
    /// Adds a cell with these corners, which are points of the mesh and all different.
    Add { corners: [u32; 4] },
    /// Makes a live cell absent.
    Remove { cell: u32 },
    /// Splits a live cell into four round a new point: it becomes absent, and the four come that have the new point in
    /// place of its first, second, third and fourth corner. The point may lie anywhere.
    Split { cell: u32, at: Point },
}

/// An axis of the coordinates.
#[derive(Clone, Copy, Debug, PartialEq, Eq)]
pub enum Axis {
    X,
    Y,
    Z,
}

/// A motion of all points at once, each from the places before it. A coordinate that would go beyond -2^30 or 2^30 is
/// held there. Quotients are rounded towards the smaller number.
#[derive(Clone, Copy, Debug, PartialEq, Eq)]
pub enum Kernel {
    /// Every point stays where it is.
    Stay,
    /// Every point moves by so much on each axis.
    Shift { dx: i32, dy: i32, dz: i32 },
    /// Every point moves `num` in `den` parts of the way to `to`, on each axis. `den` is above 0.
    Pull { to: Point, num: i32, den: i32 },
    /// Every coordinate moves by a number from `-amp` to `amp`, which depends on `seed` and on the step, the point and
    /// the axis.
    Shake { seed: u32, amp: u32 },
    /// Every vertex goes to the mean of its neighbours. A point that no live cell has stays.
    Relax,
    /// A quarter turn round an axis through the origin: round z, the x axis comes to where the y axis was. Round x the
    /// y axis comes to z, and round y the z axis to x.
    Turn { axis: Axis },
}
