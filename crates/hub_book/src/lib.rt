// A hub contract added to a book (document 02, paper 7): the point-to-point contracts that it becomes join the book's end.
#![tactic(auto)]

ghost use Rattle.std.specs.Prelude.{◌≡◌, ◌<◌, length};
ghost use Rattle.lists.specs.Lent.{before, after, overwrite};
ghost use Rattle.tariff.specs.Refusals.{passed, first};
ghost use Rattle.layouts.specs.BookFile.{contract_count_in};
ghost use Rattle.hub_book.specs.AddHubContract.{hub_call, AddsHub};
ghost use Rattle.book_growth.specs.Inner.{Whole};
ghost use Rattle.hub_book.specs.Inner.{term_checks, given_checks, terms_call, row_contract, HubRoom, grown_front};

use book_bits::Contracts;
use tariff::{Contract, Kind, MAX_HOLDER, MAX_HUB_NODES, Period, Quantity, Refusal};

// What a hub contract says beside its hub and its quantity. Kind and period are numbers as C gives them: `check_terms` refuses those that are none (17, 18).
#[derive(Clone, Copy)]
struct Terms {
    kind: u64,
    period: u64,
    holder: u64,
    sink: u64,
}

// 17, 18, 11 for the hub's nodes, 11 for the sink, 13; ends are held to be below a number.
fn check_terms(below: usize, terms: Terms, hub: &[u64], quantity: u64) -> Result<(), Refusal>
    requires { 0 < below }
    ensures { result ≡ first (term_checks below terms hub.now quantity) }
{
    if 1 < terms.kind {
        return Err(Refusal::PeriodOrKind);
    }
    if 1 < terms.period {
        return Err(Refusal::PeriodOrKind);
    }
    if MAX_HOLDER < terms.holder {
        return Err(Refusal::HolderRange);
    }
    if grid_tables::listed_outside(below, hub) {
        return Err(Refusal::NodeNumber);
    }
    if below as u64 <= terms.sink {
        return Err(Refusal::NodeNumber);
    }
    if tariff::quantity_bad(quantity) {
        return Err(Refusal::QuantityRange);
    }
    Ok(())
}

// The book's own checks, those of the terms, 24, 25. `hub` and `weights` stand apart here and below as C lends them: the entry takes two lists.
fn check_given(
    nodes: usize,
    book: &[u8],
    terms: Terms,
    hub: &[u64],
    weights: &[u64],
    quantity: u64,
) -> Result<(), Refusal>
    ensures { result ≡ first (given_checks nodes book.now terms hub.now weights.now quantity) }
{
    book_checks::check_own(nodes, book)?;
    let form = book_bits::book_form(book);
    let below = form.ends_below(nodes);
    check_terms(below, terms, hub, quantity)?;
    hub_checks::check_shape(hub, weights)
}

// The contract of row i. Sources and quantities are two lists, of which the first `made` count, here and below: `HubRoom` and `grown_front` say the rows so.
fn row_at(terms: Terms, sources: &[u64], quantities: &[u64], i: usize) -> Contract
    requires { (i < length sources.now) × (i < length quantities.now) }
    ensures { result ≡ row_contract terms sources.now quantities.now i }
{
    Contract {
        kind: Kind::from(terms.kind),
        period: Period::from(terms.period),
        holder: terms.holder,
        source: sources[i] as usize,
        sink: terms.sink as usize,
        quantity: Quantity(quantities[i]),
    }
}

// Writes a book with `made` rows behind its contracts: its bytes under a new header, then row by row. What stands at `book_writing::write_contracts` holds here.
fn write_grown(
    contracts: Contracts,
    terms: Terms,
    made: usize,
    sources: &[u64],
    quantities: &[u64],
    file: &mut [u8],
)
    requires whole { Whole contracts.form contracts.file.now × (contract_count_in contracts.file.now ≡ contracts.count) }
    requires room { HubRoom contracts.form contracts.count terms made sources.now quantities.now file.old }
    ensures { after file ≡ overwrite (grown_front contracts.entry.form contracts.entry.count terms made sources.now quantities.now contracts.entry.file.now)
        (before file) }
{
    let count = contracts.count;
    let form = contracts.form;
    book_growth::keep_contracts(contracts.file, form, count + made, file);
    for i in 0..made {
        let c = row_at(terms, sources, quantities, i);
        book_bits::store_contract(file, form, count + i, c);
    }
}

// Adds the contracts made where what does not ask how many they are was found in order: 10 and 9 are left.
fn add_made(
    nodes: usize,
    book: &[u8],
    terms: Terms,
    hub: &[u64],
    weights: &[u64],
    quantity: u64,
    file: &mut [u8],
) -> Result<usize, Refusal>
    requires { first (given_checks nodes book.now terms hub.now weights.now quantity) ≡ passed }
    ensures { AddsHub (terms_call nodes book.now terms hub.now weights.now quantity (before file)) result (after file) }
{
    let mut sources = [0u64; MAX_HUB_NODES];
    let mut quantities = [0u64; MAX_HUB_NODES];
    let made = hub_shares::hub_rows(
        nodes,
        hub,
        weights,
        Quantity(quantity),
        &mut sources,
        &mut quantities,
    );
    let contracts = Contracts::of(book);
    let form = contracts.form;
    let grown = contracts.count + made;
    book_growth::check_room(form, grown, file.len())?;
    let bytes = form.book_bytes(grown);
    write_grown(contracts, terms, made, &sources, &quantities, file);
    Ok(bytes)
}

// Adds the contracts of a hub contract to a book for a grid of `nodes` nodes.
pub fn add_hub_contract(
    nodes: usize,
    book: &[u8],
    kind: u64,
    period: u64,
    holder: u64,
    hub: &[u64],
    weights: &[u64],
    sink: u64,
    quantity: u64,
    file: &mut [u8],
) -> Result<usize, Refusal>
    ensures { AddsHub (hub_call nodes book.now kind period holder hub.now weights.now sink quantity (before file)) result (after file) }
{
    let terms = Terms {
        kind,
        period,
        holder,
        sink,
    };
    check_given(nodes, book, terms, hub, weights, quantity)?;
    add_made(nodes, book, terms, hub, weights, quantity, file)
}
