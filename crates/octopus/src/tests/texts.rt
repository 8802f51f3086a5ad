//! Files of the runs, and what is written.

pub const ONE: &str = "# vtk DataFile Version 3.0
one
ASCII
DATASET UNSTRUCTURED_GRID
POINTS 4 int
0 0 0
4 0 0
0 4 0
0 0 4
CELLS 1 5
4 0 1 2 3
CELL_TYPES 1
10
";

/// No points and no cells.
pub const EMPTY: &str = "# vtk DataFile Version 3.0
none
ASCII
DATASET UNSTRUCTURED_GRID
POINTS 0 int
CELLS 0 0
CELL_TYPES 0
";

/// Five cells of which each face is on two.
pub const CLOSED: &str = "# vtk DataFile Version 3.0
closed
ASCII
DATASET UNSTRUCTURED_GRID
POINTS 5 int
0 0 0
4 0 0
0 4 0
0 0 4
1 1 1
CELLS 5 25
4 0 1 2 3
4 0 1 2 4
4 0 1 3 4
4 0 2 3 4
4 1 2 3 4
CELL_TYPES 5
10
10
10
10
10
";

/// The point number 4 is in no cell.
pub const LONE_POINT: &str = "# vtk DataFile Version 3.0
one
ASCII
DATASET UNSTRUCTURED_GRID
POINTS 5 int
0 0 0
4 0 0
0 4 0
0 0 4
1 0 0
CELLS 1 5
4 0 1 2 3
CELL_TYPES 1
10
";

/// One cube of six cells.
pub const BLOCK_1: &str = "# vtk DataFile Version 3.0
octopus mesh
ASCII
DATASET UNSTRUCTURED_GRID
POINTS 8 int
0 0 0
16 0 0
0 16 0
16 16 0
0 0 16
16 0 16
0 16 16
16 16 16
CELLS 6 30
4 0 1 3 7
4 0 1 5 7
4 0 2 3 7
4 0 2 6 7
4 0 4 5 7
4 0 4 6 7
CELL_TYPES 6
10
10
10
10
10
10
";

/// Two splits, and a box.
pub const SPLITS: &str = "octopus script 1
split 0 4 4 4
split 2 2 6 3
stay
session
box 4 4 4 4 4 4
end
";

/// Three steps, and a box on the last one.
pub const THREE_SHIFTS: &str = "octopus script 1
shift 1 0 0
shift 1 0 0
shift 1 0 0
session
wait 3
box 3 0 0 7 0 0
end
";

/// The same in version 2.
pub const THREE_SHIFTS_2: &str = "octopus script 2
shift 1 0 0
shift 1 0 0
shift 1 0 0
session
wait 3
box 3 0 0 7 0 0
end
";

/// The mesh of its step 3 on `ONE`.
pub const MOVED_THRICE: &str = "# vtk DataFile Version 3.0
octopus mesh
ASCII
DATASET UNSTRUCTURED_GRID
POINTS 4 int
3 0 0
7 0 0
3 4 0
3 0 4
CELLS 1 5
4 0 1 2 3
CELL_TYPES 1
10
";

/// The mesh of step 1 of `SPLITS`, on a cell with edges of 16.
pub const SPLIT_TWICE: &str = "# vtk DataFile Version 3.0
octopus mesh
ASCII
DATASET UNSTRUCTURED_GRID
POINTS 6 int
0 0 0
16 0 0
0 16 0
0 0 16
4 4 4
2 6 3
CELLS 7 35
4 4 1 2 3
4 0 1 4 3
4 0 1 2 4
4 5 4 2 3
4 0 5 2 3
4 0 4 5 3
4 0 4 2 5
CELL_TYPES 7
10
10
10
10
10
10
10
";

/// A file with lines that end in CR LF, a field, metadata, cells of another type, and attributes.
pub const RICH: &str = "# vtk DataFile Version 4.2\r
Tissue block, step 0\r
ASCII\r
DATASET UNSTRUCTURED_GRID\r
FIELD FieldData 1\r
TIME 1 1 double\r
0.25\r
POINTS 5 double\r
0 0 0 10.0 0 0 0 1e1 0\r
0 0 10 10 10 10\r
METADATA\r
INFORMATION 0\r
\r
CELLS 4 18\r
3 0 1 2\r
3 0 1 3\r
4 0 1 2 3\r
4 1 2 3 4\r
CELL_TYPES 4\r
5\r
5\r
10\r
10\r
POINT_DATA 5\r
SCALARS pressure float 1\r
LOOKUP_TABLE default\r
0.5 0.5 0.5 0.5 0.5\r
";

/// `ONE` with another version.
pub const VERSION_6: &str = "# vtk DataFile Version 6.0
one
ASCII
DATASET UNSTRUCTURED_GRID
POINTS 4 int
0 0 0
4 0 0
0 4 0
0 0 4
CELLS 1 5
4 0 1 2 3
CELL_TYPES 1
10
";

/// `ONE` with edges of 16.
pub const WIDE: &str = "# vtk DataFile Version 3.0
one
ASCII
DATASET UNSTRUCTURED_GRID
POINTS 4 int
0 0 0
16 0 0
0 16 0
0 0 16
CELLS 1 5
4 0 1 2 3
CELL_TYPES 1
10
";

/// One step, and a hold of two boxes on it.
pub const HOLD: &str = "octopus script 2
shift 1 0 0
session
wait 1
hold
box 0 0 0 1 0 0
box 17 0 0 17 0 0
free
box 1 16 0 1 16 0
end
";

/// One step, and a box that is asked twice of it.
pub const ASKED_TWICE: &str = "octopus script 1
shift 1 0 0
session
wait 1
box 1 0 0 5 0 0
box 1 0 0 5 0 0
end
";
