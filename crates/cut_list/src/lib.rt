// The least cuts that clear a failing book: each contract of the period whose quantity, lowered alone, makes it pass, with the smallest such cut.
#![tactic(auto)]

ghost use Rattle.std.specs.Prelude.{◌≡◌, ◌≤◌, length};
ghost use Rattle.lists.specs.Lent.{before, after, overwrite};
ghost use Rattle.test_terms.specs.Calls.{asked_test};
ghost use Rattle.cut_rules.specs.FindCuts.{FindsCuts};
ghost use Rattle.cut_list.specs.Inner.{numbers_of, cuts_of, ListsRows};

use cut_rules::KEY_BASE;
use tariff::{MAX_CONTRACTS, Refusal};
use test_terms::{Asked, Tested};
use test_verdict::check_test;

// Takes keys apart: the contracts' numbers, and their cuts.
fn store_rows(keys: &[u64], numbers: &mut [u64], cuts: &mut [u64])
    requires { (length keys.now ≤ length numbers.old) × (length keys.now ≤ length cuts.old) }
    ensures numbers_value { after numbers ≡ overwrite (numbers_of keys.now (length keys.now)) (before numbers) }
    ensures cuts_value { after cuts ≡ overwrite (cuts_of keys.now (length keys.now)) (before cuts) }
{
    // By index: two slices are written at it.
    for (i, key) in keys.iter().enumerate() {
        numbers[i] = key % KEY_BASE;
        cuts[i] = key / KEY_BASE;
    }
}

// Stores the rows of keys, where either table has room for them.
fn list_rows(keys: &[u64], numbers: &mut [u64], cuts: &mut [u64]) -> Result<usize, Refusal>
    ensures { ListsRows keys.now (length keys.now) (before numbers) (before cuts) result (after numbers) (after cuts) }
{
    let listed = keys.len();
    if numbers.len() < listed {
        return Err(Refusal::ShortTable);
    }
    if cuts.len() < listed {
        return Err(Refusal::ShortTable);
    }
    store_rows(keys, numbers, cuts);
    Ok(listed)
}

// Lists each contract of the period whose quantity, lowered alone, makes a failing book pass, with the least such cut: by cut, then by contract number.
// The C interface lends the tables, of which nothing is checked yet, one by one.
pub fn find_cuts(
    asked: Asked,
    limits: &[u64],
    factors: &[i64],
    book: &[u8],
    numbers: &mut [u64],
    cuts: &mut [u64],
) -> Result<usize, Refusal>
    ensures { FindsCuts (asked_test asked limits.now factors.now book.now) numbers cuts result }
{
    check_test(asked, limits, factors, book)?;
    let mut keys = [0u64; MAX_CONTRACTS];
    let test = Tested::of(asked, limits, factors, book);
    let listed = cut_keys::row_keys(test, &mut keys);
    list_rows(&keys[..listed], numbers, cuts)
}
