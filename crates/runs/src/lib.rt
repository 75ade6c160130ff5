// Runs of fields of one width: searched for a figure above a limit, read into cells from the front, and written from cells by a writer.
#![tactic(auto)]

ghost use Rattle.std.specs.Prelude.{◌≡◌, ℕ, ◌+◌, ◌*◌, ◌^◌, ◌≤◌, ◌<◌, length, get_or};
ghost use Rattle.bits.specs.Bits.{number, fields};
ghost use Rattle.bits.specs.Inner.{written, bits_written, WritesOn};
ghost use Rattle.lists.specs.Lists.{any_of, above};
ghost use Rattle.lists.specs.Lent.{before, after};
ghost use Rattle.runs.specs.Inner.{max_file_bytes};

use bits::BitWriter;

// Whether one of `count` fields of `width` bits, from bit `offset` on, is above `most`. A field can begin and end within a byte, so no slice is the run.
// The width's bound is a clause, here and below: callers give constants of the layouts.
pub fn field_above(s: &[u8], offset: usize, width: usize, count: usize, most: u64) -> bool
    requires count_bound { offset + width * count ≤ 8 * length s.now }
    requires width_bound { (width ≤ 32) × (length s.now ≤ max_file_bytes) }
    ensures { result ≡ any_of (above most) (fields s.now offset width count) }
{
    (0..count).any(|i| most < bits::field(s, offset + width * i, width))
}

// Reads fields of `width` bits, from bit `offset` on, into all of `out`.
pub fn read_run(s: &[u8], offset: usize, width: usize, out: &mut [u64])
    requires run_bound { offset + width * length out.old ≤ 8 * length s.now }
    requires width_bound { (width ≤ 32) × (length s.now ≤ max_file_bytes) }
    ensures { after out ≡ fields s.now offset width (length (before out)) }
{
    for (i, cell) in out.iter_mut().enumerate() {
        *cell = bits::field(s, offset + width * i, width);
    }
}

// Writes each cell as the next `width` bits.
pub fn write_run(buf: &mut [u8], from: BitWriter, cells: &[u64], width: usize) -> BitWriter
    requires width_bound { (width ≤ 32) × ((k : ℕ) → k < length cells.now → get_or cells.now k 0 < 2 ^ width) }
    requires run_bound { bits_written from + width * length cells.now ≤ 8 * length buf.old }
    ensures result_value { written (after buf) result ≡ written (before buf) from * 2 ^ (width * length cells.now) + number width cells.now }
    ensures result_value_2 { bits_written result ≡ bits_written from + width * length cells.now }
    ensures writes_on { WritesOn (before buf) from (after buf) result }
{
    let mut writer = from;
    for cell in cells {
        writer = bits::put(buf, writer, *cell, width);
    }
    writer
}
