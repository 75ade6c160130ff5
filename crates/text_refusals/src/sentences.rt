// The sentences, one behind the other by rising numbers, and where each ends: proved to be those of specs/Sentences.antt.
ghost use Rattle.std.specs.Prelude.{◌≡◌, ◌-◌, ◌≤◌, length, get_or};
ghost use Rattle.lists.specs.Lent.{before, after};
ghost use Rattle.text_format.specs.Inner.{Put};
ghost use Rattle.text_refusals.specs.Inner.{numbers, ends, part, all_bytes};

use text_format::Text;

const ENDS: [u16; 29] = [
    0, 10, 99, 166, 186, 247, 344, 369, 409, 445, 527, 607, 698, 698, 727, 788, 809, 827, 925, 943,
    1005, 1076, 1146, 1264, 1351, 1449, 1477, 1565, 1603,
];

// Where the sentence of number k starts, and that before it ends. One function with `cell` of date_table would take the table, whose cells the contract would then
// speak of: it would be the look-up itself, and each table's own promise would stand around it as it does now.
pub fn end(k: usize) -> usize
    requires { k ≤ numbers }
    ensures { result ≡ get_or ends k 0 }
{
    usize::from(ENDS[k])
}

// Puts what stands from one place to another at the buffer's front.
pub fn put_part(buf: &mut [u8], start: usize, end: usize) -> usize
    requires { (start ≤ end) × (end ≤ all_bytes) × (end - start ≤ length buf.old) }
    ensures { Put (before buf) 0 (part start end) (after buf) result }
{
    let all: &[u8] = b"no refusal\
a file of fewer bytes than its header: two (grid, book), four (wide grid) or one (prices)\
nodes 0 or above 4,000; reading or writing a narrow grid, above 200\
constraints above 64\
the spare bits of a file's header have neither form's pattern\
a file's length differs from what its form and counts fix; a text's grid, also above 32,768 bytes\
a limit above 100,000,000\
a factor below -100,000 or above 100,000\
a padding bit at a file's end is set\
a lent table, or a place for an answer, of too few cells; remapping, unequal lists\
more than 1,000 contracts, a book that would grow past 1,000, or a 1,001st award\
a source, sink or listed node not below the node count; written to a narrow book, above 255\
quantity 0 or above 1,000,000\
the price file's constraint count differs from the one stated\
a price above 500,000\
process not 0 to 2\
a period not 0 or 1; writing a book, adding to one or adding an award, a kind or period not 0 or 1\
holder above 1,023\
a date or month that does not exist or is outside 2010 to 2037\
running test: a tier not 1 to 4, or returning to one that is not marked\
running test: with the award some flow would exceed its released limit\
load migration: a figure, count or LSE number outside its range, unequal lists, or a row whose old and new LSE are one\
load migration: an LSE that loses load has none, or less than its losses to all gainers\
a hub not of 1 to 32 nodes, unequal lists, or weights outside 1 to 100,000 or not together 100,000\
a node listed twice in a hub\
sharing a balance: no demands or more than 256, or a balance or demand outside its range\
sharing a balance: the demands total 0";
    let mut text = Text { buf, at: 0 };
    text.put(&all[start..end]);
    text.at
}
