// The canonical form of a book (document 02, paper 11), written in the book's form.
#![tactic(auto)]

ghost use Rattle.std.specs.Prelude.{◌≡◌, ◌++◌, ℕ, ◌+◌, ◌≤◌, ◌<◌, length, get_or, take, drop};
ghost use Rattle.lists.specs.Lists.{list_to};
ghost use Rattle.lists.specs.Lent.{before, after, overwrite};
ghost use Rattle.tariff.specs.Units.{max_contracts};
ghost use Rattle.layouts.specs.Forms.{record_bytes};
ghost use Rattle.layouts.specs.BookFile.{book_bytes_of, book_file};
ghost use Rattle.layouts.specs.Inner.{contract_for};
ghost use Rattle.book_rules.specs.Inner.{bits_bytes};
ghost use Rattle.canonical_rules.specs.CanonicalBook.{canonical_book_call, WritesCanonicalBook};
ghost use Rattle.canonical_book.specs.Inner.{row_bytes, RowOf};

use book_bits::{Contracts, NARROW_END_WIDTH, QUANTITIES, QUANTITY_WIDTH, WIDE_END_WIDTH};
use layouts::Form;
use tariff::{MAX_CONTRACTS, Refusal};

// One past the largest figure of an end's bits in a narrow book.
const NARROW_ENDS: u64 = 1u64 << NARROW_END_WIDTH;

// The bits in a form of the row whose number is `v`: with ends of 8 bits sink and quantity stand side by side as in the number, and with 12 bits all do.
fn bits_of(form: Form, v: u64) -> u64
    requires { RowOf form v }
    ensures { row_bytes form v ≡ bits_bytes form result }
{
    match form {
        Form::Narrow => {
            let terms = book_bits::terms_in(v, WIDE_END_WIDTH);
            let source = book_bits::source_in(v, WIDE_END_WIDTH);
            let rest = bits::part(v, 0, NARROW_END_WIDTH + QUANTITY_WIDTH);
            (terms * NARROW_ENDS + source) * (NARROW_ENDS * QUANTITIES) + rest
        }
        Form::Wide => v,
    }
}

// Stores the row whose number is `v` as contract i of a book in a form. Here and below the file is lent and written, so that it and its form are no `Contracts`,
// which are shared bytes to be read.
fn store_row(file: &mut [u8], form: Form, i: usize, v: u64)
    requires { (i < 1024) × (book_bytes_of form i + record_bytes form ≤ length file.old) × RowOf form v }
    ensures { after file ≡ take (book_bytes_of form i) (before file) ++ row_bytes form v ++ drop (book_bytes_of form i + record_bytes form) (before file) }
{
    book_bits::store_bits(file, form, i, bits_of(form, v));
}

// Writes the book of the rows that have these numbers. As `book_writing::write_contracts` says of itself and the like.
fn write_rows(form: Form, rows: &[u64], file: &mut [u8])
    requires rows_le_max_contracts { (length rows.now ≤ max_contracts) × (book_bytes_of form (length rows.now) ≤ length file.old) }
    requires by_index { (i : ℕ) → i < length rows.now → RowOf form (get_or rows.now i 0) }
    ensures { after file ≡ overwrite (book_file form (list_to (length rows.now) (λ i. contract_for 12 (get_or rows.now i 0)))) (before file) }
{
    book_bits::store_header(file, form, rows.len());
    for (i, row) in rows.iter().enumerate() {
        store_row(file, form, i, *row);
    }
}

// Writes the canonical form of a book for a grid of `nodes` nodes. Takes 21,000 bytes of stack.
pub fn write_canonical_book(nodes: usize, book: &[u8], file: &mut [u8]) -> Result<usize, Refusal>
    ensures { WritesCanonicalBook (canonical_book_call nodes book.now (before file)) result (after file) }
{
    book_checks::check_own(nodes, book)?;
    let contracts = Contracts::of(book);
    let mut cells = [0u64; MAX_CONTRACTS];
    let rows = canonical_numbers::canonical_rows(contracts, &mut cells);
    let bytes = contracts.form.book_bytes(rows);
    if file.len() < bytes {
        return Err(Refusal::ShortTable);
    }
    write_rows(contracts.form, &cells[..rows], file);
    Ok(bytes)
}
