// The checks that every operation on a book has: a contract's own, the book's, and those of a book that is handed in with a node count.
#![tactic(auto)]

ghost use Rattle.std.specs.Prelude.{◌≡◌, ◌≤◌, ◌<◌};
ghost use Rattle.tariff.specs.Refusals.{first};
ghost use Rattle.layouts.specs.BookFile.{contract_in};
ghost use Rattle.layouts.specs.Inner.{contract_for};
ghost use Rattle.book_rules.specs.BookChecks.{checks_to, contract_checks, book_checks, own_checks};
ghost use Rattle.book_rules.specs.Inner.{number_checks};

use book_bits::{Contracts, NARROW_END_WIDTH, WIDE_END_WIDTH};
use layouts::{BOOK_HEADER_BYTES, Form};
use tariff::{MAX_CONTRACTS, Refusal};

// A contract's own checks, on its numbers: 11, 13. None has its unit before it has passed.
pub fn check_numbers(nodes: usize, source: usize, sink: usize, quantity: u64) -> Result<(), Refusal>
    ensures { result ≡ first (number_checks nodes source sink quantity) }
{
    // One comparison holds both ends.
    if nodes <= source.max(sink) {
        return Err(Refusal::NodeNumber);
    }
    if tariff::quantity_bad(quantity) {
        return Err(Refusal::QuantityRange);
    }
    Ok(())
}

// The checks of the contract whose bits are the lowest of `v`, its ends of `width` bits.
fn check_bits(nodes: usize, v: u64, width: usize) -> Result<(), Refusal>
    requires { width ≤ 12 }
    ensures { result ≡ first (contract_checks nodes (contract_for width v)) }
{
    check_numbers(
        nodes,
        book_bits::source_in(v, width) as usize,
        book_bits::sink_in(v, width) as usize,
        book_bits::quantity_in(v),
    )
}

// The checks of contract i of a book. Its two arms are as `book_bits::contract_at`'s, each with its width as a constant.
fn check_at(nodes: usize, contracts: Contracts, i: usize) -> Result<(), Refusal>
    requires { i < contracts.count }
    ensures { result ≡ first (contract_checks nodes (contract_in contracts.entry.form contracts.entry.file.now i)) }
{
    match contracts.form {
        Form::Narrow => check_bits(nodes, contracts.bits_at(i), NARROW_END_WIDTH),
        Form::Wide => check_bits(nodes, contracts.bits_at(i), WIDE_END_WIDTH),
    }
}

// The checks of a book's contracts, one after the other.
fn check_contracts(nodes: usize, contracts: Contracts) -> Result<(), Refusal>
    ensures { result ≡ first (checks_to contracts.entry.count (λ i. contract_checks nodes (contract_in contracts.entry.form contracts.entry.file.now i))) }
{
    for i in 0..contracts.len() {
        check_at(nodes, contracts, i)?;
    }
    Ok(())
}

// The book's own checks: 1, 10, 4, 5, then contract by contract 11, 13.
pub fn check_book(nodes: usize, file: &[u8]) -> Result<(), Refusal>
    ensures { result ≡ first (book_checks nodes file.now) }
{
    if file.len() < BOOK_HEADER_BYTES {
        return Err(Refusal::ShortFile);
    }
    let count = book_bits::contract_count(file);
    if MAX_CONTRACTS < count {
        return Err(Refusal::ContractCount);
    }
    let form = book_bits::book_form(file);
    if book_bits::spare_bits(file) != form.spare_pattern() {
        return Err(Refusal::SpareBits);
    }
    if file.len() != form.book_bytes(count) {
        return Err(Refusal::FileLength);
    }
    check_contracts(nodes, Contracts { file, form, count })
}

// The own checks of a book that is handed in for a grid of `nodes` nodes: 2, then the book's.
pub fn check_own(nodes: usize, file: &[u8]) -> Result<(), Refusal>
    ensures { result ≡ first (own_checks nodes file.now) }
{
    if tariff::nodes_bad(nodes) {
        return Err(Refusal::NodeCount);
    }
    check_book(nodes, file)
}
