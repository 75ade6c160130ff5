// Adding a hub contract to a book for C: the length goes into a lent cell, and the answer is the refusal's number, 0 for none.
// C calls each operation by a name of its own and with raw parameters, so a body that only passes the answer on is written out for each.
#![tactic(auto)]

ghost use Rattle.lists.specs.Lent.{before, after};
ghost use Rattle.hub_book.specs.AddHubContract.{hub_call, AddsHubForC};

// Adds the contracts that a hub contract becomes to a book's file for a grid of `nodes` nodes, and gives the new file's length.
// Its body is `crr_migrate_load`'s but for the entry: C calls each by its own name, and both hand the answer on by `answer_cell`.
#[unsafe(no_mangle)]
pub extern "C" fn crr_add_hub_contract(
    nodes: usize,
    book: &[u8],
    kind: u64,
    period: u64,
    holder: u64,
    hub: &[u64],
    weights: &[u64],
    sink: u64,
    quantity: u64,
    file: &mut [u8],
    bytes: &mut usize,
) -> u64
    ensures { AddsHubForC (hub_call nodes book.now kind period holder hub.now weights.now sink quantity (before file)) result (after file) bytes }
{
    let answer = hub_book::add_hub_contract(
        nodes, book, kind, period, holder, hub, weights, sink, quantity, file,
    );
    tariff::answer_cell(answer, bytes)
}
