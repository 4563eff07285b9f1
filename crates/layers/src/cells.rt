// The cells of a search. By rank, each node has a cell for each of its arcs.

// The cell of the first rank's hi arc.
pub const HIGH_CELLS: usize = 2;

// The cell of the first rank's lo arc.
pub const LOW_CELLS: usize = 258;

// The cell that the roots' arcs start from.
pub const ROOT_CELL: usize = 1;
