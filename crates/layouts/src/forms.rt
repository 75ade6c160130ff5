// The two forms of a grid's and a book's file (document 02, request 9): narrow, document 01's, and wide.
ghost use Rattle.std.specs.Prelude.{◌≡◌, ◌≤◌};
ghost use Rattle.tariff.specs.Units.{max_contracts};
ghost use Rattle.layouts.specs.Forms.{form_number, form_of, most_nodes_of, grid_header_bits_of, grid_header_bytes_of, grid_spare_of, spare_pattern_of, ends_below_of};
ghost use Rattle.layouts.specs.BookFile.{book_bytes_of};

use crate::{
    BOOK_HEADER_BYTES, CONTRACT_BYTES, GRID_HEADER_BITS, NARROW_ENDS, WIDE_CONTRACT_BYTES,
    WIDE_GRID_HEADER_BITS,
};
use tariff::{MAX_NARROW_NODES, MAX_NODES};

#[derive(Clone, Copy, Debug, PartialEq, Eq)]
pub enum Form {
    Narrow = 0,
    Wide = 1,
}

// By the number that a caller gives: any number but 0 is the wide form's. Written out: tariff/src/contracts.rt says why.
impl From<u64> for Form {
    ghost from_gives = { λ number form. form ≡ form_of number };

    fn from(number: u64) -> Form {
        match number {
            0 => Form::Narrow,
            _ => Form::Wide,
        }
    }
}

impl From<Form> for u64 {
    ghost from_gives = { λ form number. number ≡ form_number form };

    fn from(form: Form) -> u64 {
        form as u64
    }
}

// What a form fixes: each function is a match whose arms are constants of its own, and a function that took them in would be no plainer.
impl Form {
    // The most nodes of a grid's file.
    pub fn most_nodes(self) -> usize
        ensures { result ≡ most_nodes_of self }
    {
        match self {
            Form::Narrow => MAX_NARROW_NODES,
            Form::Wide => MAX_NODES,
        }
    }

    // The bits of a grid's header.
    pub fn grid_header_bits(self) -> usize
        ensures { result ≡ grid_header_bits_of self }
    {
        match self {
            Form::Narrow => GRID_HEADER_BITS,
            Form::Wide => WIDE_GRID_HEADER_BITS,
        }
    }

    pub fn grid_header_bytes(self) -> usize
        ensures { result ≡ grid_header_bytes_of self }
    {
        match self {
            Form::Narrow => 2,
            Form::Wide => 4,
        }
    }

    // A grid's spare bit.
    pub fn grid_spare(self) -> u64
        ensures { result ≡ grid_spare_of self }
    {
        match self {
            Form::Narrow => 0,
            Form::Wide => 1,
        }
    }

    // A book's spare bits.
    pub fn spare_pattern(self) -> u64
        ensures { (result ≡ spare_pattern_of self) × (result ≤ 63) }
    {
        match self {
            Form::Narrow => 0,
            Form::Wide => 63,
        }
    }

    // The bytes of a book of so many contracts. Their bound is a clause: counts are plain numbers, which are compared and added to before there is a book.
    pub fn book_bytes(self, contracts: usize) -> usize
        requires { contracts ≤ max_contracts }
        ensures { result ≡ book_bytes_of self contracts }
    {
        match self {
            Form::Narrow => BOOK_HEADER_BYTES + CONTRACT_BYTES * contracts,
            Form::Wide => BOOK_HEADER_BYTES + WIDE_CONTRACT_BYTES * contracts,
        }
    }

    // What the ends of a book for so many nodes are below.
    pub fn ends_below(self, nodes: usize) -> usize
        ensures { result ≡ ends_below_of self nodes }
    {
        match self {
            Form::Narrow => nodes.min(NARROW_ENDS),
            Form::Wide => nodes,
        }
    }
}
