// Bit fields of any width at any bit offset of a slice of bytes, the most significant bit first: read, written, and taken as two's complement.
#![tactic(auto)]

ghost use Rattle.std.specs.Prelude.{◌≡◌, ◌+◌, ◌-◌, ◌*◌, ◌/◌, ◌%◌, ◌^◌, ◌≤◌, ◌<◌, length, take, drop};
ghost use Rattle.std.specs.Int.Signed.{mag};
ghost use Rattle.bits.specs.Bits.{number, field as field_of};
ghost use Rattle.bits.specs.Signed.{of_int, to_int};

mod writer;

pub use writer::{put, put_last, store2, store6, store7};

// The bytes of `s` from `first` on, `count` of them, as one number. Where `count` is a constant the compiler makes one load of it, or two.
// `count` says how many are taken, not how long `s` is: as a slice they would be cut out by each caller in place of here.
pub fn window(s: &[u8], first: usize, count: usize) -> u64
    requires count_in_bounds { first + count ≤ length s.now }
    requires count_bound { count ≤ 8 }
    ensures { result ≡ number 8 (take count (drop first s.now)) }
{
    let mut bytes = [0; 8];
    bytes[8 - count..].copy_from_slice(&s[first..first + count]);
    u64::from_be_bytes(bytes)
}

// Eight bytes from `first` on: `window` in its place would owe `count ≤ 8` at each call.
pub fn window8(s: &[u8], first: usize) -> u64
    requires { first + 8 ≤ length s.now }
    ensures { result ≡ number 8 (take 8 (drop first s.now)) }
{
    window(s, first, 8)
}

// The `width` bits of `v` above its `low` lowest.
pub fn part(v: u64, low: usize, width: usize) -> u64
    requires { (low ≤ 63) × (width ≤ 63) }
    ensures { (result ≡ v / 2 ^ low % 2 ^ width) × (result < 2 ^ width) }
{
    (v >> low) % (1u64 << width)
}

// The field out of the `count` bytes from its first on: `count` is `window`'s, for the same reason.
fn cut(s: &[u8], offset: usize, width: usize, count: usize) -> u64
    requires { (offset % 8 + width ≤ 8 * count) × (offset / 8 + count ≤ length s.now) × (count ≤ 5) × (width ≤ 32) }
    ensures { (result ≡ field_of s.now offset width) × (result < 2 ^ width) }
{
    part(
        window(s, offset / 8, count),
        8 * count - offset % 8 - width,
        width,
    )
}

// All of `s`, fewer than five bytes, as one number, one by one: `window` of so many as there are would call `memcpy`, and its load would wait for the bytes.
fn gather(s: &[u8]) -> u64
    requires { length s.now ≤ 4 }
    ensures { result ≡ number 8 s.now }
{
    let mut acc = 0;
    for b in s {
        acc = acc * 256 + u64::from(*b);
    }
    acc
}

// The field of `width` bits at bit `offset`: four or five bytes at once, or where there are fewer, all that are left.
pub fn field(s: &[u8], offset: usize, width: usize) -> u64
    requires width_bound { offset + width ≤ 8 * length s.now }
    requires width_bound_2 { width ≤ 32 }
    ensures { (result ≡ field_of s.now offset width) × (result < 2 ^ width) }
{
    let left = s.len() - offset / 8;
    if left < 5 {
        part(
            gather(&s[offset / 8..]),
            8 * left - offset % 8 - width,
            width,
        )
    } else if width <= 25 {
        cut(s, offset, width, 4)
    } else {
        cut(s, offset, width, 5)
    }
}

// The field of `width` bits at bit `offset`, where it ends behind the first seven bytes: the eight bytes that end with it are there, and nothing is asked.
pub fn load_field(s: &[u8], offset: usize, width: usize) -> u64
    requires bound { (57 ≤ offset + width) × (offset + width ≤ 8 * length s.now) }
    requires offset_bound { (offset < 2 ^ 32) × (1 ≤ width) × (width ≤ 32) }
    ensures { (result ≡ field_of s.now offset width) × (result < 2 ^ width) }
{
    let last = offset + width - 1;
    part(window8(s, last / 8 - 7), 7 - last % 8, width)
}

// 2 to the power of `k`.
fn power(k: usize) -> u64
    requires { k ≤ 32 }
    ensures { (result ≡ 2 ^ k) × (0 < result) × (result ≤ 2 ^ 32) }
{
    1u64 << k
}

// The integer that `v` is in two's complement of `width` bits.
pub fn signed(v: u64, width: usize) -> i64
    requires le_width { (1 ≤ width) × (width ≤ 32) }
    requires v_bound { v < 2 ^ width }
    ensures { result ≡ to_int width v }
{
    let whole = power(width);
    let half = power(width - 1);
    let raised = (v + half) % whole;
    (raised as i64) - (half as i64)
}

// The two's complement of `width` bits of `z`.
pub fn unsigned(z: i64, width: usize) -> u64
    requires le_width { (1 ≤ width) × (width ≤ 32) }
    requires z_bound { mag z < 2 ^ (width - 1) }
    ensures { (result ≡ of_int width z) × (result < 2 ^ width) }
{
    let whole = power(width);
    ((z + (whole as i64)) as u64) % whole
}

// Where a writer stands: `at` whole bytes are written, and `held` bits more wait, less than four bytes of them, the lowest of `bits`.
// The bytes are lent beside it: `put`, which docs/DEMANDS.md names, promises of both apart (`written`, `WritesOn`).
#[derive(Clone, Copy)]
pub struct BitWriter {
    pub at: usize,
    pub held: usize,
    pub bits: u64,
    pub ghost ready: { held ≤ 31 },
}

impl BitWriter {
    ghost use Rattle.bits.specs.Inner.{bits_written};

    // A writer that stands at the first bit.
    pub fn new() -> Self
        ensures { bits_written result ≡ 0 }
    {
        BitWriter {
            at: 0,
            held: 0,
            bits: 0,
        }
    }
}
