// A book grown by contracts: its own are kept as they are under a new header, and others join its end.
#![tactic(auto)]

ghost use Rattle.std.specs.Prelude.{◌≡◌, ◌≤◌, length};
ghost use Rattle.lists.specs.Lent.{before, after, overwrite};
ghost use Rattle.tariff.specs.Refusals.{first};
ghost use Rattle.tariff.specs.Units.{max_contracts};
ghost use Rattle.layouts.specs.BookFile.{book_in};
ghost use Rattle.book_rules.specs.Inner.{book_front};
ghost use Rattle.book_growth.specs.Inner.{growth_checks, Whole};

use layouts::Form;
use tariff::{MAX_CONTRACTS, Refusal};

// Begins a book of `grown` contracts with those of a book: its bytes under a new header. Its bytes are copied and no contract is read, so no `Contracts` is asked
// for, and `grown` is of the file that is written.
pub fn keep_contracts(book: &[u8], form: Form, grown: usize, file: &mut [u8])
    requires { Whole form book.now × (grown ≤ max_contracts) × (length book.now ≤ length file.old) }
    ensures { after file ≡ overwrite (book_front form grown (book_in book.now)) (before file) }
{
    for i in 0..book.len() {
        file[i] = book[i];
    }
    book_bits::store_header(file, form, grown);
}

// 10 for a book that grows too long, then 9, with so many bytes of room.
pub fn check_room(form: Form, grown: usize, bytes: usize) -> Result<(), Refusal>
    ensures { result ≡ first (growth_checks form grown bytes) }
{
    if MAX_CONTRACTS < grown {
        return Err(Refusal::ContractCount);
    }
    if bytes < form.book_bytes(grown) {
        return Err(Refusal::ShortTable);
    }
    Ok(())
}
