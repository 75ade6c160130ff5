// A book's bits: the header's two fields, and a contract as the one number that its bits are. Widths and places of a contract's parts stand here alone.
#![tactic(auto)]

ghost use Rattle.std.specs.Prelude.{◌≡◌, ◌++◌, ◌+◌, ◌/◌, ◌%◌, ◌^◌, ◌≤◌, ◌<◌, length, take, drop};
ghost use Rattle.lists.specs.Lent.{before, after, overwrite};
ghost use Rattle.layouts.specs.Forms.{end_width, record_bytes};
ghost use Rattle.layouts.specs.BookFile.{book_bytes_of, contract_count_in, book_spare_in, book_form_in, contract_in};
ghost use Rattle.layouts.specs.Inner.{contract_for};
ghost use Rattle.layouts.specs.BookTable.{ContractFits};
ghost use Rattle.book_rules.specs.Inner.{header_bytes, contract_bytes, terms_number_of, contract_number_of, bits_bytes};

mod contracts;

pub use contracts::Contracts;
use layouts::{BOOK_HEADER_BYTES, CONTRACT_BYTES, Form, WIDE_CONTRACT_BYTES};
use tariff::{Contract, Kind, Period, Quantity};

// The bits of a header's count and of its spare field.
const COUNT_WIDTH: usize = 10;

const SPARE_WIDTH: usize = 6;

// The bits of a contract, the highest first: kind and period 1 each, holder, source and sink in either form, quantity.
pub const HOLDER_WIDTH: usize = 10;

pub const NARROW_END_WIDTH: usize = 8;

pub const WIDE_END_WIDTH: usize = 12;

pub const QUANTITY_WIDTH: usize = 20;

// Kind, period and holder side by side: a contract's terms.
const TERMS_WIDTH: usize = 2 + HOLDER_WIDTH;

// The lowest bit of holder, period and kind, but for both ends, which lie between them and the quantity.
const HOLDER_AT: usize = QUANTITY_WIDTH;

const PERIOD_AT: usize = HOLDER_AT + HOLDER_WIDTH;

const KIND_AT: usize = PERIOD_AT + 1;

// And with the ends of either form.
pub const NARROW_HOLDER_AT: usize = HOLDER_AT + 2 * NARROW_END_WIDTH;

pub const WIDE_HOLDER_AT: usize = HOLDER_AT + 2 * WIDE_END_WIDTH;

pub const NARROW_PERIOD_AT: usize = PERIOD_AT + 2 * NARROW_END_WIDTH;

pub const WIDE_PERIOD_AT: usize = PERIOD_AT + 2 * WIDE_END_WIDTH;

// One past the largest figure of a holder's bits, of an end's in either form and of a quantity's.
pub const HOLDERS: u64 = 1u64 << HOLDER_WIDTH;

const NARROW_ENDS: u64 = 1u64 << NARROW_END_WIDTH;

const WIDE_ENDS: u64 = 1u64 << WIDE_END_WIDTH;

pub const QUANTITIES: u64 = 1u64 << QUANTITY_WIDTH;

// How many contracts a book's header says.
pub fn contract_count(file: &[u8]) -> usize
    requires { 2 ≤ length file.now }
    ensures { (result ≡ contract_count_in file.now) × (result < 1024) }
{
    bits::field(file, 0, COUNT_WIDTH) as usize
}

// The header's spare bits.
pub fn spare_bits(file: &[u8]) -> u64
    requires { 2 ≤ length file.now }
    ensures { result ≡ book_spare_in file.now }
{
    bits::field(file, COUNT_WIDTH, SPARE_WIDTH)
}

// The form of a book's bytes: wide where all six spare bits are set.
pub fn book_form(file: &[u8]) -> Form
    requires { 2 ≤ length file.now }
    ensures { result ≡ book_form_in file.now }
{
    if spare_bits(file) == 63 {
        Form::Wide
    } else {
        Form::Narrow
    }
}

// The parts of the contract whose bits are the lowest of `v`, its ends of `width` bits. Each has its own place and width, as `spare_bits` has: one function for
// two of them would take these as arguments, which `bits::part` does.
pub fn kind_in(v: u64, width: usize) -> Kind
    requires { width ≤ 12 }
    ensures { result ≡ (contract_for width v).kind }
{
    Kind::from(bits::part(v, KIND_AT + (width + width), 1))
}

pub fn period_in(v: u64, width: usize) -> Period
    requires { width ≤ 12 }
    ensures { result ≡ (contract_for width v).period }
{
    Period::from(bits::part(v, PERIOD_AT + (width + width), 1))
}

pub fn holder_in(v: u64, width: usize) -> u64
    requires { width ≤ 12 }
    ensures { result ≡ (contract_for width v).holder }
{
    bits::part(v, HOLDER_AT + (width + width), HOLDER_WIDTH)
}

pub fn source_in(v: u64, width: usize) -> u64
    requires { width ≤ 12 }
    ensures { (result ≡ (contract_for width v).source) × (result < 2 ^ width) }
{
    bits::part(v, QUANTITY_WIDTH + width, width)
}

pub fn sink_in(v: u64, width: usize) -> u64
    requires { width ≤ 12 }
    ensures { (result ≡ (contract_for width v).sink) × (result < 2 ^ width) }
{
    bits::part(v, QUANTITY_WIDTH, width)
}

pub fn quantity_in(v: u64) -> u64
    ensures { (result ≡ v / 2 ^ 0 % 2 ^ 20) × (result < 2 ^ 20) }
{
    bits::part(v, 0, QUANTITY_WIDTH)
}

// Kind, period and holder as one number.
pub fn terms_in(v: u64, width: usize) -> u64
    requires { width ≤ 12 }
    ensures { (result ≡ terms_number_of (contract_for width v)) × (result < 4096) }
{
    bits::part(v, HOLDER_AT + (width + width), TERMS_WIDTH)
}

// The contract whose bits are the lowest of `v`, its ends of `width` bits.
fn contract_of(v: u64, width: usize) -> Contract
    requires { width ≤ 12 }
    ensures { result ≡ contract_for width v }
{
    Contract {
        kind: kind_in(v, width),
        period: period_in(v, width),
        holder: holder_in(v, width),
        source: source_in(v, width) as usize,
        sink: sink_in(v, width) as usize,
        quantity: Quantity(quantity_in(v)),
    }
}

// The eight bytes that end with contract i of a book's bytes, as one number: the header's two bytes stand before the first contract, so they are there.
// It, `store_bits` and view_holder's `holder_of` match the form alike, but each arm calls its own function with its own numbers.
pub fn bits_at(file: &[u8], form: Form, i: usize) -> u64
    requires { (i < 1024) × (book_bytes_of form i + record_bytes form ≤ length file.now) }
    ensures { contract_in form file.now i ≡ contract_for (end_width form) result }
{
    match form {
        Form::Narrow => bits::window8(file, CONTRACT_BYTES * i),
        Form::Wide => bits::window8(file, 1 + WIDE_CONTRACT_BYTES * i),
    }
}

// Contract i of a book's bytes in a form. Canonical books' `number_at` has the same two arms, with other functions in them.
pub fn contract_at(file: &[u8], form: Form, i: usize) -> Contract
    requires { (i < 1024) × (book_bytes_of form i + record_bytes form ≤ length file.now) }
    ensures { result ≡ contract_in form file.now i }
{
    match form {
        Form::Narrow => contract_of(bits_at(file, Form::Narrow, i), NARROW_END_WIDTH),
        Form::Wide => contract_of(bits_at(file, Form::Wide, i), WIDE_END_WIDTH),
    }
}

// Stores the header of a book of so many contracts.
pub fn store_header(file: &mut [u8], form: Form, contracts: usize)
    requires { (contracts < 1024) × (2 ≤ length file.old) }
    ensures { after file ≡ overwrite (header_bytes form contracts) (before file) }
{
    let spare = form.spare_pattern();
    file[0] = (contracts / 4) as u8;
    file[1] = ((contracts % 4 * 64) as u64 + spare) as u8;
}

// A contract's kind, period and holder as one number.
fn terms_number(c: Contract) -> u64
    requires { c.holder < 1024 }
    ensures { (result ≡ terms_number_of c) × (result < 4096) }
{
    (c.kind as u64 * 2 + c.period as u64) * HOLDERS + c.holder
}

// A contract's bits as one number in a form, from its kind, period and holder as one, its ends and its quantity.
pub fn contract_number(form: Form, terms: u64, source: u64, sink: u64, quantity: u64) -> u64
    requires { (terms < 4096) × (source < 2 ^ end_width form) × (sink < 2 ^ end_width form) × (quantity < 2 ^ 20) }
    ensures { result ≡ contract_number_of form terms source sink quantity }
{
    let ends = match form {
        Form::Narrow => (terms * NARROW_ENDS + source) * NARROW_ENDS + sink,
        Form::Wide => (terms * WIDE_ENDS + source) * WIDE_ENDS + sink,
    };
    ends * QUANTITIES + quantity
}

// Stores the bits of contract i of a book in a form: six or seven bytes at once.
pub fn store_bits(file: &mut [u8], form: Form, i: usize, v: u64)
    requires { (i < 1024) × (book_bytes_of form i + record_bytes form ≤ length file.old) }
    ensures { after file ≡ take (book_bytes_of form i) (before file) ++ bits_bytes form v ++ drop (book_bytes_of form i + record_bytes form) (before file) }
{
    match form {
        Form::Narrow => bits::store6(file, BOOK_HEADER_BYTES + CONTRACT_BYTES * i, v),
        Form::Wide => bits::store7(file, BOOK_HEADER_BYTES + WIDE_CONTRACT_BYTES * i, v),
    }
}

// Stores contract i of a book in a form.
pub fn store_contract(file: &mut [u8], form: Form, i: usize, c: Contract)
    requires i_bound { (i < 1024) × (book_bytes_of form i + record_bytes form ≤ length file.old) }
    requires contract_fits { ContractFits (end_width form) c }
    ensures { after file ≡ take (book_bytes_of form i) (before file) ++ contract_bytes form c ++ drop (book_bytes_of form i + record_bytes form) (before file) }
{
    let terms = terms_number(c);
    let v = contract_number(
        form,
        terms,
        c.source as u64,
        c.sink as u64,
        u64::from(c.quantity),
    );
    store_bits(file, form, i, v);
}
