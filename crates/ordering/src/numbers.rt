// The numbers of arcs: a hi arc has its node's number, and record k's node is k + 2.

// How much larger the number of a node's lo arc is than the node's.
pub const LOW_OFFSET: usize = 256;

// The number of the first record's hi arc.
pub const HIGH_ARCS: usize = 2;

// The number of the first record's lo arc.
pub const LOW_ARCS: usize = LOW_OFFSET + 2;

// The number of the first root's arc.
pub const ROOT_ARCS: usize = 2 * LOW_OFFSET + 2;
