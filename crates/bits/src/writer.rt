// Bytes that are stored, and a writer, which writes fields one after the other.

ghost use Rattle.std.specs.Prelude.{◌≡◌, ◌++◌, ℕ, ◌+◌, ◌*◌, ◌%◌, ◌^◌, ◌≤◌, ◌<◌, length, take, drop};
ghost use Rattle.bits.specs.Bits.{digits};
ghost use Rattle.bits.specs.Inner.{written, bits_written, WritesOn};
ghost use Rattle.lists.specs.Lent.{before, after};

use crate::{BitWriter, part};

// `v`, of `width` bits, behind the bits of `a`, of which the highest are lost. Value and width stay two parameters, here and below:
// most widths are constants of a file's form, and a type of both would be made at each call.
fn join(a: u64, v: u64, width: usize) -> u64
    requires { (v < 2 ^ width) × (width ≤ 32) }
    ensures { (held : ℕ) → held + width ≤ 64 → result % 2 ^ (held + width) ≡ a % 2 ^ held * 2 ^ width + v }
{
    (a << width) + v
}

// Stores the `count` lowest bytes of `v` from place `at` on. Where `count` is a constant the compiler makes as few stores of it as there can be.
// `count` is of the bytes of `v`, which `buf` is longer than.
fn store(buf: &mut [u8], at: usize, count: usize, v: u64)
    requires { (at + count ≤ length buf.old) × (count ≤ 8) }
    ensures { after buf ≡ take at (before buf) ++ digits 8 count v ++ drop (at + count) (before buf) }
{
    buf[at..at + count].copy_from_slice(&v.to_be_bytes()[8 - count..]);
}

// Stores the two lowest bytes of `v` from place `at` on. This, `store6` and `store7` stay: `store` in their place would owe `count ≤ 8` at each call.
pub fn store2(buf: &mut [u8], at: usize, v: u64)
    requires { at + 2 ≤ length buf.old }
    ensures { after buf ≡ take at (before buf) ++ digits 8 2 v ++ drop (at + 2) (before buf) }
{
    store(buf, at, 2, v);
}

// Stores the six lowest bytes of `v` from place `at` on: a record of 48 bits.
pub fn store6(buf: &mut [u8], at: usize, v: u64)
    requires { at + 6 ≤ length buf.old }
    ensures { after buf ≡ take at (before buf) ++ digits 8 6 v ++ drop (at + 6) (before buf) }
{
    store(buf, at, 6, v);
}

// Stores the seven lowest bytes of `v` from place `at` on: a record of 56 bits.
pub fn store7(buf: &mut [u8], at: usize, v: u64)
    requires { at + 7 ≤ length buf.old }
    ensures { after buf ≡ take at (before buf) ++ digits 8 7 v ++ drop (at + 7) (before buf) }
{
    store(buf, at, 7, v);
}

// Stores the four bytes of `v` from place `at` on: `store` of four would swap eight.
fn store4(buf: &mut [u8], at: usize, v: u32)
    requires { at + 4 ≤ length buf.old }
    ensures { after buf ≡ take at (before buf) ++ digits 8 4 v ++ drop (at + 4) (before buf) }
{
    buf[at..at + 4].copy_from_slice(&v.to_be_bytes());
}

// Writes `v` as the next `width` bits: four bytes leave the writer at once, as soon as it holds them.
pub fn put(buf: &mut [u8], writer: BitWriter, v: u64, width: usize) -> BitWriter
    requires v_bound { (v < 2 ^ width) × (width ≤ 32) }
    requires width_bound { bits_written writer + width ≤ 8 * length buf.old }
    ensures result_value { written (after buf) result ≡ written (before buf) writer * 2 ^ width + v }
    ensures result_value_2 { bits_written result ≡ bits_written writer + width }
    ensures writes_on { WritesOn (before buf) writer (after buf) result }
{
    let at = writer.at;
    let held = writer.held + width;
    let bits = join(writer.bits, v, width);
    if held < 32 {
        return BitWriter { at, held, bits };
    }
    let rest = held - 32;
    store4(buf, at, part(bits, rest, 32) as u32);
    BitWriter {
        at: at + 4,
        held: rest,
        bits,
    }
}

// Stores the whole bytes that a writer holds, at most three, the last one first: `store` of so many would call `memcpy`.
fn flush(buf: &mut [u8], writer: BitWriter) -> BitWriter
    requires { bits_written writer ≤ 8 * length buf.old }
    ensures result_value { written (after buf) result ≡ written (before buf) writer }
    ensures result_value_2 { (bits_written result ≡ bits_written writer) × (result.held ≤ 7) }
    ensures writes_on { WritesOn (before buf) writer (after buf) result }
{
    let whole = writer.held / 8;
    let rest = writer.held % 8;
    let mut bits = writer.bits >> rest;
    for i in (0..whole).rev() {
        buf[writer.at + i] = (bits % 256) as u8;
        bits /= 256;
    }
    BitWriter {
        at: writer.at + whole,
        held: rest,
        bits: writer.bits,
    }
}

// Writes `v` as the last `width` bits: no whole byte stays in the writer.
pub fn put_last(buf: &mut [u8], writer: BitWriter, v: u64, width: usize) -> BitWriter
    requires v_bound { (v < 2 ^ width) × (width ≤ 32) }
    requires width_bound { bits_written writer + width ≤ 8 * length buf.old }
    ensures result_value { written (after buf) result ≡ written (before buf) writer * 2 ^ width + v }
    ensures result_value_2 { (bits_written result ≡ bits_written writer + width) × (result.held ≤ 7) }
    ensures writes_on { WritesOn (before buf) writer (after buf) result }
{
    let last = put(buf, writer, v, width);
    flush(buf, last)
}
