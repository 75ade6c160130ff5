// The grid's two operations for C: figures go into lent cells, and the answer is the refusal's number, 0 for none.
// C calls each operation by a name of its own and with raw parameters, so a body that only passes the answer on is written out for each.
#![tactic(auto)]

ghost use Rattle.lists.specs.Lent.{before, after};
ghost use Rattle.layouts.specs.Forms.{form_of};
ghost use Rattle.grid_rules.specs.ReadGrid.{read_grid_call, ReadsGridForC};
ghost use Rattle.grid_rules.specs.WriteGrid.{write_grid_call, WritesGridForC};

use layouts::Form;

// Reads a grid's file into the first cells of its tables, and gives its counts and its form's number.
#[unsafe(no_mangle)]
pub extern "C" fn crr_read_grid(
    file: &[u8],
    limits: &mut [u64],
    factors: &mut [i64],
    nodes: &mut usize,
    constraints: &mut usize,
    form: &mut u64,
) -> u64
    ensures { ReadsGridForC (read_grid_call file.now (before limits) (before factors)) result (after limits) (after factors) nodes constraints form }
{
    match grid_reading::read_grid(file, limits, factors) {
        Err(refusal) => refusal.number(),
        Ok(found) => {
            *nodes = found.nodes;
            *constraints = found.constraints;
            *form = u64::from(found.form);
            0
        }
    }
}

// Writes a grid's file, in the form of that number, from the first cells of its tables, and gives its length.
#[unsafe(no_mangle)]
pub extern "C" fn crr_write_grid(
    form: u64,
    nodes: usize,
    constraints: usize,
    limits: &[u64],
    factors: &[i64],
    file: &mut [u8],
    bytes: &mut usize,
) -> u64
    ensures { WritesGridForC (write_grid_call (form_of form) nodes constraints limits.now factors.now (before file)) result (after file) bytes }
{
    let form = Form::from(form);
    let answer = grid_writing::write_grid(form, nodes, constraints, limits, factors, file);
    tariff::answer_cell(answer, bytes)
}
