// What a grid's counts make of its file: how many factors, and how many bits and bytes.
ghost use Rattle.std.specs.Prelude.{◌≡◌, ◌*◌, ◌≤◌};
ghost use Rattle.tariff.specs.Units.{max_nodes, max_constraints};
ghost use Rattle.layouts.specs.GridFile.{bits_behind};
ghost use Rattle.layouts.specs.Files.{bytes_for};
ghost use Rattle.grid_rules.specs.Inner.{GoodCounts, most_header, most_bits, most_bytes};

use layouts::{FACTOR_WIDTH, LIMIT_WIDTH};

// The bits of a file's header and its counts, each one that a grid may have.
#[derive(Clone, Copy)]
pub struct GridSize {
    pub header: usize,
    pub nodes: usize,
    pub constraints: usize,
    pub ghost good: { (header ≤ most_header) × GoodCounts nodes constraints },
}

impl GridSize {
    // One factor for each node and constraint.
    pub fn factors(self) -> usize
        ensures { (result ≡ self.nodes * self.constraints) × (result ≤ max_nodes * max_constraints) }
    {
        self.nodes * self.constraints
    }

    // The bits of a file before its padding.
    pub fn used_bits(self) -> usize
        ensures { (result ≡ bits_behind self.header self.nodes self.constraints) × (result ≤ most_bits) }
    {
        self.header + LIMIT_WIDTH * self.constraints + FACTOR_WIDTH * self.factors()
    }

    // The bytes of a file.
    pub fn file_bytes(self) -> usize
        ensures { (result ≡ bytes_for (bits_behind self.header self.nodes self.constraints)) × (result ≤ most_bytes) }
    {
        self.used_bits().div_ceil(8)
    }
}
