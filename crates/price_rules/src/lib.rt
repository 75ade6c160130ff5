// Document 01's price file: what its reader and its writer promise, the answer that reading gives, the file's size, and the laws of all.
#![tactic(auto)]

ghost use Rattle.std.specs.Prelude.{◌≡◌, ◌≤◌};
ghost use Rattle.tariff.specs.Units.{max_constraints};
ghost use Rattle.layouts.specs.PriceFile.{price_bytes};

use layouts::{PRICE_HEADER_BITS, PRICE_WIDTH};

// The bytes of a file. Of a bare count, as C hands it in: its one check stands in each caller, and a type for it would be made there for this call alone.
pub fn file_bytes(constraints: usize) -> usize
    requires { constraints ≤ max_constraints }
    ensures { result ≡ price_bytes constraints }
{
    (PRICE_HEADER_BITS + PRICE_WIDTH * constraints + 7) / 8
}
