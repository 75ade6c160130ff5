// The hour statement's lines, put into a lent buffer.
#![tactic(auto)]

ghost use Rattle.std.specs.Prelude.{◌≡◌, [], ◌∷◌, ◌++◌, ◌+◌, ◌*◌, ◌≤◌, ◌<◌, length, nat_abs};
ghost use Rattle.text_format.specs.Ascii.{ascii};
ghost use Rattle.text_format.specs.Decimal.{decimal};
ghost use Rattle.text_format.specs.Inner.{HasRoom, Puts};
ghost use Rattle.tariff.specs.Units.{per_cent};
ghost use Rattle.hour_rules.specs.Inner.{Bounded};
ghost use Rattle.text_statement_lines.specs.Lines.{heading, kind_word, contract_line, line_of, sum_line, exact_line, longest_line, longest_sum, longest_exact};
ghost use Rattle.text_statement_lines.specs.Inner.{max_line_total, lines_by, settled_lines_of};

mod book;

pub use book::{Line, SettledBook};
use hour_rules::Totals;
use tariff::{Kind, MAX_CONTRACTS, Period};
use text_format::Text;

// The first line.
const HEADING: [u8; 34] = *b"contract,holder,kind,cents,priced\n";

// The longest lines of a contract, of the sum and of the exact total, and with the heading the longest statement.
const LONGEST_LINE: usize = (*b"999,1023,OBL,-64000000000,64\n").len();

const LONGEST_SUM: usize = (*b"sum,-64000000000000\n").len();

const LONGEST_EXACT: usize = (*b"exact,-64000000000000,99999999\n").len();

pub const LONGEST_STATEMENT: usize = HEADING.len()
    + LONGEST_LINE * MAX_CONTRACTS
    + LONGEST_SUM
    + LONGEST_EXACT;

// A number and the character behind it.
fn put_number(text: &mut Text, number: u64, behind: u8)
    requires { HasRoom text.old (length (decimal number) + 1) }
    ensures put { Puts text.old (decimal number ++ behind ∷ []) text.new }
    ensures value { text.new.at ≡ text.old.at + length (decimal number) + 1 }
{
    text.put_decimal(number);
    text.put_char(behind);
}

// The kind's word and a comma.
fn kind_field(kind: Kind) -> &'static [u8; 4]
    ensures { result.now ≡ kind_word kind ++ ascii "," }
{
    match kind {
        Kind::Obligation => b"OBL,",
        Kind::Option => b"OPT,",
    }
}

// The line of one contract.
fn put_contract(text: &mut Text, line: Line)
    requires { HasRoom text.old longest_line }
    ensures put { Puts text.old (contract_line line.number line.contract line.cents line.priced) text.new }
    ensures upper_bound { text.new.at ≤ text.old.at + longest_line }
{
    put_number(text, line.number, b',');
    put_number(text, line.contract.holder, b',');
    text.put(kind_field(line.contract.kind));
    text.put_signed(line.cents);
    text.put_char(b',');
    put_number(text, line.priced, b'\n');
}

// The line of a contract of the period; nothing for the other period's.
fn put_own(text: &mut Text, period: Period, line: Line)
    requires { HasRoom text.old longest_line }
    ensures put { Puts text.old (line_of period line.number line.contract line.cents line.priced) text.new }
    ensures upper_bound { text.new.at ≤ text.old.at + longest_line }
{
    if line.contract.period == period {
        put_contract(text, line);
    }
}

// The lines of a book's contracts.
fn put_contracts(text: &mut Text, period: Period, book: SettledBook)
    requires { HasRoom text.old (longest_line * book.contracts.count) }
    ensures put { Puts text.old (lines_by period book.entry) text.new }
    ensures upper_bound { text.new.at ≤ text.old.at + longest_line * book.entry.contracts.count }
{
    for i in 0..book.contracts.len() {
        put_own(text, period, book.line(i));
    }
}

// The sum of the rounded cents.
fn put_sum(text: &mut Text, sum: i64)
    requires { (nat_abs sum ≤ max_line_total) × HasRoom text.old longest_sum }
    ensures put { Puts text.old (sum_line sum) text.new }
    ensures upper_bound { text.new.at ≤ text.old.at + longest_sum }
{
    text.put(b"sum,");
    text.put_signed(sum);
    text.put_char(b'\n');
}

// The exact total: whole cents and parts.
fn put_exact(text: &mut Text, whole: i64, parts: u64)
    requires { (nat_abs whole ≤ max_line_total) × (parts < per_cent) × HasRoom text.old longest_exact }
    ensures put { Puts text.old (exact_line whole parts) text.new }
    ensures upper_bound { text.new.at ≤ text.old.at + longest_exact }
{
    text.put(b"exact,");
    text.put_signed(whole);
    text.put_char(b',');
    put_number(text, parts, b'\n');
}

// All lines: the heading, the contracts of the period, the sum and the exact total. In a frame of its own: where LLVM takes it into its caller's, this keeps the
// nodes' congestion components twice, 32,000 bytes more than CRR_TEXT_STACK_BYTES leaves.
#[inline(never)]
pub fn put_lines(text: &mut Text, period: Period, book: SettledBook, totals: Totals)
    requires bounded { Bounded book.contracts.count totals }
    requires in_bounds { HasRoom text.old (length heading + longest_line * book.contracts.count + longest_sum + longest_exact) }
    ensures { Puts text.old (settled_lines_of period book.entry totals) text.new }
{
    text.put(&HEADING);
    put_contracts(text, period, book);
    put_sum(text, totals.sum);
    put_exact(text, totals.whole, totals.parts);
}
