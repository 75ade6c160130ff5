// The cells of a running test's marks: copied, set and unset. C lends the numbers as a slice that may be longer than a state's, and promises are of all of it,
// so that it is long enough is a clause: of an array cut from it each function would need a law that the cells behind it stay.
#![tactic(auto)]

ghost use Rattle.std.specs.Prelude.{◌≡◌, ◌≤◌, length};
ghost use Rattle.lists.specs.Lent.{before, after};
ghost use Rattle.tier_rules.specs.Checks.{max_tier};
ghost use Rattle.tier_rules.specs.Cells.{state_numbers, copied, marked_numbers, drop_marks_of, returned_numbers};
ghost use Rattle.tier_mark_rules.specs.Inner.{Apart};

use tier_rules::{BLOCK, MAX_TIER};

// The numbers of a mark. Tier i's: at MARK * i - 1 whether it is set, behind it the awards held at it, then those counted.
pub const MARK: usize = 3;

// A flow itself: as an argument it is known to be a number of 64 bits.
fn same_flow(flow: i64) -> i64
    ensures { result ≡ flow }
{
    flow
}

// Copies the 64 flows from one place to another that does not overlap it, cell by cell: by `copy_from_slice` a library for C would ask for `memmove`.
pub fn copy_block(flows: &mut [i64], from: usize, to: usize)
    requires { Apart from to flows.old }
    ensures { after flows ≡ copied from to (before flows) }
{
    for k in 0..BLOCK {
        flows[to + k] = same_flow(flows[from + k]);
    }
}

// The numbers of a mark: it is set, and how many awards are held and counted now.
pub fn mark_numbers(numbers: &mut [u64], i: usize)
    requires { (1 ≤ i) × (i ≤ max_tier) × (state_numbers ≤ length numbers.old) }
    ensures { after numbers ≡ marked_numbers i (before numbers) }
{
    let held = numbers[0];
    let counted = numbers[1];
    numbers[MARK * i - 1] = 1;
    numbers[MARK * i] = held;
    numbers[MARK * i + 1] = counted;
}

// Unsets every mark made when more awards were held.
fn drop_marks(numbers: &mut [u64], most: u64)
    requires { state_numbers ≤ length numbers.old }
    ensures { after numbers ≡ drop_marks_of most max_tier (before numbers) }
{
    for j in 1..=MAX_TIER as usize {
        if most < numbers[MARK * j] {
            numbers[MARK * j - 1] = 0;
        }
    }
}

// The numbers after returning to the mark of tier i.
pub fn return_numbers(numbers: &mut [u64], i: usize)
    requires { (1 ≤ i) × (i ≤ max_tier) × (state_numbers ≤ length numbers.old) }
    ensures { after numbers ≡ returned_numbers i (before numbers) }
{
    let held = numbers[MARK * i];
    let counted = numbers[MARK * i + 1];
    drop_marks(numbers, held);
    numbers[0] = held;
    numbers[1] = counted;
}
