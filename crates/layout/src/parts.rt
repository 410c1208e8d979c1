// The length of a sheet's blocks, and where the parts of a block begin.

// The length of a block.
pub const BLOCK: usize = 512;

// The most blocks of a sheet.
pub const MOST_BLOCKS: usize = 64;

// The number of records.
pub const COUNT_AT: usize = 1;

// The block's number, in two bytes.
pub const POSITION_AT: usize = 2;

// The body: the records, then zeros.
pub const BODY_AT: usize = 4;

// The check, in four bytes.
pub const CHECK_AT: usize = 508;
