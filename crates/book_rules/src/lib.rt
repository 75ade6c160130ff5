// Books: the checks that every operation on a book has, a contract's bits as one number, what the reader and the writer promise, and the laws of all three.
#![tactic(auto)]

use layouts::Form;

// What reading a book gives beside its table: how many contracts were read, and in which form.
#[derive(Clone, Copy)]
pub struct BookRead {
    pub contracts: usize,
    pub form: Form,
}
