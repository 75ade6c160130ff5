// A grid's file written from its tables.
#![tactic(auto)]

ghost use Rattle.std.specs.Prelude.{◌≡◌, ℕ, ◌+◌, ◌*◌, ◌^◌, ◌≤◌, ◌<◌, map, length, get_or, pos, nat_abs};
ghost use Rattle.bits.specs.Bits.{number};
ghost use Rattle.bits.specs.Signed.{of_int};
ghost use Rattle.bits.specs.Inner.{written, bits_written, WritesOn};
ghost use Rattle.lists.specs.Lent.{before, after, overwrite};
ghost use Rattle.tariff.specs.Units.{grid_of, max_constraints, max_factor};
ghost use Rattle.layouts.specs.Forms.{most_nodes_of, grid_header_bytes_of};
ghost use Rattle.layouts.specs.GridFile.{factor_width, grid_header, grid_file};
ghost use Rattle.runs.specs.Inner.{WrittenFields};
ghost use Rattle.grid_rules.specs.WriteGrid.{write_grid_call, write_grid_checked, WritesGrid};
ghost use Rattle.grid_rules.specs.Inner.{Writable};

use bits::BitWriter;
use grid_checks::GridSize;
use grid_tables::FactorTable;
use layouts::{FACTOR_WIDTH, Form, LIMIT_WIDTH};
use tariff::Refusal;

// The tables are checked as for a test, of a process and a period that pass. Counts, tables and form as C hands them in: `FactorTable` holds what this has checked.
fn check_write(
    form: Form,
    nodes: usize,
    constraints: usize,
    limits: &[u64],
    factors: &[i64],
    file: &[u8],
) -> Result<(), Refusal>
    ensures { result ≡ write_grid_checked (write_grid_call form nodes constraints limits.now factors.now file.now) }
{
    if tariff::nodes_outside(form.most_nodes(), nodes) {
        return Err(Refusal::NodeCount);
    }
    grid_tables::check_grid_tables(nodes, constraints, 0, 0, limits, factors)?;
    let size = GridSize {
        header: form.grid_header_bits(),
        nodes,
        constraints,
    };
    if file.len() < size.file_bytes() {
        return Err(Refusal::ShortTable);
    }
    Ok(())
}

// Writes each factor as the next bits.
fn write_factors(buf: &mut [u8], from: BitWriter, factors: &[i64]) -> BitWriter
    requires sized { (k : ℕ) → k < length factors.now → nat_abs (get_or factors.now k (pos 0)) ≤ max_factor }
    requires run_bound { bits_written from + factor_width * length factors.now ≤ 8 * length buf.old }
    ensures result_value { written (after buf) result ≡
        written (before buf) from * 2 ^ (factor_width * length factors.now) + number factor_width (map (of_int factor_width) factors.now) }
    ensures result_value_2 { bits_written result ≡ bits_written from + factor_width * length factors.now }
    ensures writes_on { WritesOn (before buf) from (after buf) result }
{
    let mut writer = from;
    for factor in factors {
        writer = bits::put(
            buf,
            writer,
            bits::unsigned(*factor, FACTOR_WIDTH),
            FACTOR_WIDTH,
        );
    }
    writer
}

// Writes the header in its form. What it asks of the counts stands in the contract of this function alone.
fn put_header(file: &mut [u8], form: Form, nodes: usize, constraints: usize) -> BitWriter
    requires { (nodes ≤ most_nodes_of form) × (constraints ≤ max_constraints) × (grid_header_bytes_of form ≤ length file.old) }
    ensures { WrittenFields (grid_header form nodes constraints) (before file) (after file) result }
{
    let start = BitWriter::new();
    match form {
        Form::Narrow => {
            let past_nodes = bits::put(file, start, nodes as u64, 8);
            let past_constraints = bits::put(file, past_nodes, constraints as u64, 7);
            bits::put(file, past_constraints, 0, 1)
        }
        Form::Wide => {
            let past_field = bits::put(file, start, 0, 8);
            let past_constraints = bits::put(file, past_field, constraints as u64, 7);
            let past_spare = bits::put(file, past_constraints, 1, 1);
            bits::put(file, past_spare, nodes as u64, 16)
        }
    }
}

// Writes the file into the first bytes of `file`, and gives its length.
fn fill(form: Form, limits: &[u64], table: FactorTable, file: &mut [u8]) -> usize
    requires { Writable form table.nodes table.constraints limits.now table.cells.now file.old }
    ensures value { result ≡ length (grid_file form (grid_of table.entry.nodes table.entry.constraints limits.now table.entry.cells.now)) }
    ensures file_value { after file ≡ overwrite
        (grid_file form (grid_of table.entry.nodes table.entry.constraints limits.now table.entry.cells.now)) (before file) }
{
    let size = GridSize {
        header: form.grid_header_bits(),
        nodes: table.nodes,
        constraints: table.constraints,
    };
    let bytes = size.file_bytes();
    let past_header = put_header(file, form, size.nodes, size.constraints);
    let past_limits = runs::write_run(file, past_header, &limits[..size.constraints], LIMIT_WIDTH);
    let past_factors = write_factors(file, past_limits, &table.cells[..size.factors()]);
    bits::put_last(file, past_factors, 0, 8 * bytes - size.used_bits());
    bytes
}

// Writes a grid's file, in the form asked for, from the first cells of its tables, all as C hands them in.
pub fn write_grid(
    form: Form,
    nodes: usize,
    constraints: usize,
    limits: &[u64],
    factors: &[i64],
    file: &mut [u8],
) -> Result<usize, Refusal>
    ensures { WritesGrid (write_grid_call form nodes constraints limits.now factors.now (before file)) result (after file) }
{
    check_write(form, nodes, constraints, limits, factors, file)?;
    let table = FactorTable::of(nodes, constraints, factors);
    Ok(fill(form, limits, table, file))
}
