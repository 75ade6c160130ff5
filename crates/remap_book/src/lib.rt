// Remapping a book (document 02, paper 6): a list of old and new node numbers, applied to both ends of each contract, one pair after another.
#![tactic(auto)]

ghost use Rattle.std.specs.Prelude.{◌≡◌, ℕ, ◌≤◌, ◌<◌, length, get_or};
ghost use Rattle.lists.specs.Lists.{list_to};
ghost use Rattle.lists.specs.Lent.{before, after, overwrite};
ghost use Rattle.layouts.specs.BookFile.{book_bytes_of, book_file, contract_in};
ghost use Rattle.remap_rules.specs.RemapBook.{remap_book_call, RemapsBook};
ghost use Rattle.remap_rules.specs.Inner.{moved_by, Movable};

use book_bits::Contracts;
use tariff::{Contract, Refusal};

// Where a node goes.
fn end_at(ends: &[u16], node: usize) -> usize
    requires { node < length ends.now }
    ensures { result ≡ get_or ends.now node 0 }
{
    ends[node] as usize
}

// Contract i, with both ends moved.
fn moved_contract(contracts: Contracts, i: usize, ends: &[u16]) -> Contract
    requires i_bound { i < contracts.count }
    requires movable { Movable contracts.form ends.now (contract_in contracts.form contracts.file.now i) }
    ensures { result ≡ moved_by ends.now (contract_in contracts.entry.form contracts.entry.file.now i) }
{
    let c = contracts.at(i);
    Contract {
        source: end_at(ends, c.source),
        sink: end_at(ends, c.sink),
        ..c
    }
}

// Writes the book of the contracts in their form, with their ends moved: a loop like that of `view_market::write_anonymous`, which says why it is not one with it.
fn write_moved(contracts: Contracts, ends: &[u16], file: &mut [u8])
    requires count_in_bounds { book_bytes_of contracts.form contracts.count ≤ length file.old }
    requires by_index { (i : ℕ) → i < contracts.count → Movable contracts.form ends.now (contract_in contracts.form contracts.file.now i) }
    ensures { after file ≡ overwrite (book_file contracts.entry.form
        (list_to contracts.entry.count (λ i. moved_by ends.now (contract_in contracts.entry.form contracts.entry.file.now i)))) (before file) }
{
    let form = contracts.form;
    book_bits::store_header(file, form, contracts.len());
    for i in 0..contracts.len() {
        book_bits::store_contract(file, form, i, moved_contract(contracts, i, ends));
    }
}

// Applies pairs of old and new node numbers to a book for a grid of `nodes` nodes.
pub fn remap_book(
    nodes: usize,
    book: &[u8],
    old: &[u64],
    new: &[u64],
    file: &mut [u8],
) -> Result<usize, Refusal>
    ensures { RemapsBook (remap_book_call nodes book.now old.now new.now (before file)) result (after file) }
{
    remap_checks::check_remap(nodes, book, old, new, file.len())?;
    let ends = remap_ends::moved_ends(nodes, old, new);
    write_moved(Contracts::of(book), &ends, file);
    Ok(book.len())
}
