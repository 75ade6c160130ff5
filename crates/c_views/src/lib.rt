// The views of a book for C: the length goes into a lent cell, and the answer is the refusal's number, 0 for none.
// C calls each operation by a name of its own and with raw parameters, so a body that only passes the answer on is written out for each.
#![tactic(auto)]

ghost use Rattle.lists.specs.Lent.{before, after};
ghost use Rattle.view_rules.specs.MarketView.{market_view_call, WritesMarketViewForC};
ghost use Rattle.view_rules.specs.HolderView.{holder_view_call, WritesHolderViewForC};

// Writes a book's file for a grid of `nodes` nodes with every holder 0, and gives its length.
// Its name and parameters are those of crr.h: functions of this shape pass on one answer each.
#[unsafe(no_mangle)]
pub extern "C" fn crr_write_market_view(
    nodes: usize,
    book: &[u8],
    file: &mut [u8],
    bytes: &mut usize,
) -> u64
    ensures { WritesMarketViewForC (market_view_call nodes book.now (before file)) result (after file) bytes }
{
    let answer = view_market::write_market_view(nodes, book, file);
    tariff::answer_cell(answer, bytes)
}

// Writes the holder's contracts of a book's file for a grid of `nodes` nodes, each behind its number, and gives their length.
// Its name and parameters are those of crr.h: functions of this shape pass on one answer each.
#[unsafe(no_mangle)]
pub extern "C" fn crr_write_holder_view(
    nodes: usize,
    book: &[u8],
    holder: u64,
    view: &mut [u8],
    bytes: &mut usize,
) -> u64
    ensures { WritesHolderViewForC (holder_view_call nodes book.now holder (before view)) result (after view) bytes }
{
    let answer = view_holder::write_holder_view(nodes, book, holder, view);
    tariff::answer_cell(answer, bytes)
}
