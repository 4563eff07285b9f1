// The limits of the papers. That of the choices is `Plan::MOST`.

// The most bytes that a file has (check 11).
pub const MOST_BYTES: usize = 1324;

// The most variables that a table has (check 12).
pub const MOST_VARIABLES: u32 = 60;

// The most records that a table has (check 12).
pub const MOST_RECORDS: u32 = 254;

// The most root words that a table has (check 12).
pub const MOST_ROOTS: u32 = 16;

// The most kits that a line takes besides its first (check 14).
pub const MOST_MORE_KITS: u32 = 500;

// The largest b of a chance (check 14).
pub const MOST_PARTS: u32 = 1000;

// The largest B: 2^56 (checks 16 and 27).
pub const MOST_SCALE: u64 = 72057594037927936;

// The largest reward of a root (check 26).
pub const MOST_REWARD: u32 = 64;

// The largest percentage (check 23).
pub const MOST_PERCENT: u32 = 100;

// The most kits that a request may have (check 24).
pub const MOST_BUDGET: u32 = 10020;
