// Document 01's three files, in both forms: values to bytes and bytes to values, as definitions and laws. The code here is what readers and writers share.
#![tactic(auto)]

mod forms;

pub use forms::Form;

// The bytes of the largest files.
pub const MAX_BOOK_BYTES: usize = 7002;

pub const MAX_PRICE_BYTES: usize = 153;

// The program takes a grid's file of at most so many bytes, and then it has at most so many factors.
pub const PROGRAM_GRID_BYTES: usize = 32768;

pub const PROGRAM_FACTORS: usize = 14561;

// Bits of a narrow grid's header, of a wide one's, of a limit, of a factor, of a price file's header and of a price.
pub const GRID_HEADER_BITS: usize = 16;

pub const WIDE_GRID_HEADER_BITS: usize = 32;

pub const LIMIT_WIDTH: usize = 27;

pub const FACTOR_WIDTH: usize = 18;

pub const PRICE_HEADER_BITS: usize = 8;

pub const PRICE_WIDTH: usize = 19;

// Bytes of a book's header, of a narrow contract and of a wide one, what a narrow contract's ends are below, and a contract's cells in a table.
pub const BOOK_HEADER_BYTES: usize = 2;

pub const CONTRACT_BYTES: usize = 6;

pub const WIDE_CONTRACT_BYTES: usize = 7;

pub const NARROW_ENDS: usize = 256;

pub const CONTRACT_CELLS: usize = 6;
