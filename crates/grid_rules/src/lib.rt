// Document 01's grid file: what its reader and its writer promise, the answer that reading gives, and the laws of both.
#![tactic(auto)]

use layouts::Form;

// What reading a grid gives beside its tables: its counts and the form of its file.
#[derive(Clone, Copy)]
pub struct GridRead {
    pub nodes: usize,
    pub constraints: usize,
    pub form: Form,
}
