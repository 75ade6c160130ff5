// A book's contracts, by their numbers in the book.

ghost use Rattle.std.specs.Prelude.{◌≡◌, ◌≤◌, ◌<◌, length};
ghost use Rattle.layouts.specs.Forms.{end_width};
ghost use Rattle.layouts.specs.BookFile.{book_bytes_of, contract_count_in, book_form_in, contract_in};
ghost use Rattle.layouts.specs.Inner.{contract_for};

use layouts::Form;
use tariff::Contract;

// The first `count` contracts of a book's bytes in a form, to be read. Bytes that are being written have no such type: they are lent by `&mut`, and what a
// ghost field said of their length would be owed anew at each store. There, and in the functions below that one contract is read by, file and form stay apart.
#[derive(Clone, Copy)]
pub struct Contracts<'a> {
    pub file: &'a [u8],
    pub form: Form,
    pub count: usize,
    pub ghost few: { count < 1024 },
    pub ghost room: { book_bytes_of form count ≤ length file.now },
}

impl<'a> Contracts<'a> {
    // All that a book's header says, in its form.
    pub fn of(file: &'a [u8]) -> Self
        requires { (2 ≤ length file.now) × (book_bytes_of (book_form_in file.now) (contract_count_in file.now) ≤ length file.now) }
        ensures { (result.file.now ≡ file.now) × (result.form ≡ book_form_in file.now) × (result.count ≡ contract_count_in file.now) }
    {
        Contracts {
            file,
            form: crate::book_form(file),
            count: crate::contract_count(file),
        }
    }

    // How many they are.
    pub fn len(self) -> usize
        ensures { (result ≡ self.entry.count) × (result < 1024) }
    {
        self.count
    }

    // Contract i. Loops count i: an iterator would be a type with laws of its own, and most of them need i besides.
    // Like `bits_at` but for the function that it calls: one of both would take that function and be no plainer.
    pub fn at(self, i: usize) -> Contract
        requires { i < self.count }
        ensures { result ≡ contract_in self.entry.form self.entry.file.now i }
    {
        crate::contract_at(self.file, self.form, i)
    }

    // The eight bytes that end with contract i, as one number.
    pub fn bits_at(self, i: usize) -> u64
        requires { i < self.count }
        ensures { contract_in self.entry.form self.entry.file.now i ≡ contract_for (end_width self.entry.form) result }
    {
        crate::bits_at(self.file, self.form, i)
    }
}
