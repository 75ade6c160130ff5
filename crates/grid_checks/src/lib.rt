// A grid's file checked before it is read: its form and its counts, and its length.
#![tactic(auto)]

ghost use Rattle.std.specs.Prelude.{◌≡◌, ◌≤◌, length};
ghost use Rattle.lists.specs.Lent.{before};
ghost use Rattle.tariff.specs.Refusals.{first};
ghost use Rattle.layouts.specs.Forms.{grid_header_bytes_of};
ghost use Rattle.layouts.specs.GridFile.{grid_form_in, nodes_of, constraints_in_of};
ghost use Rattle.grid_rules.specs.ReadGrid.{grid_size_checks};

mod counted;
mod sizes;

pub use counted::CountedFile;
use layouts::Form;
pub use sizes::GridSize;
use tariff::{MAX_CONSTRAINTS, Refusal};

// The bytes that tell the form, and hold the narrow header.
const FORM_BYTES: usize = 2;

pub fn form_in(file: &[u8]) -> Form
    requires { 2 ≤ length file.now }
    ensures { result ≡ grid_form_in file.now }
{
    if bits::field(file, 0, 8) == 0 && bits::field(file, 15, 1) == 1 {
        Form::Wide
    } else {
        Form::Narrow
    }
}

// By the form that the caller has found: `CountedFile` holds both once the length is checked.
pub fn nodes_in(file: &[u8], form: Form) -> usize
    requires { grid_header_bytes_of form ≤ length file.now }
    ensures { result ≡ nodes_of form file.now }
{
    match form {
        Form::Narrow => bits::field(file, 0, 8) as usize,
        Form::Wide => bits::field(file, 16, 16) as usize,
    }
}

pub fn constraints_in(file: &[u8]) -> usize
    requires { 2 ≤ length file.now }
    ensures { result ≡ constraints_in_of file.now }
{
    bits::field(file, 8, 7) as usize
}

// The file's checks up to its length: 1 to 5.
pub fn check_size(file: &[u8]) -> Result<(), Refusal>
    ensures { result ≡ first (grid_size_checks file.now) }
{
    if file.len() < FORM_BYTES {
        return Err(Refusal::ShortFile);
    }
    let form = form_in(file);
    if file.len() < form.grid_header_bytes() {
        return Err(Refusal::ShortFile);
    }
    let nodes = nodes_in(file, form);
    let constraints = constraints_in(file);
    if tariff::nodes_outside(form.most_nodes(), nodes) {
        return Err(Refusal::NodeCount);
    }
    if MAX_CONSTRAINTS < constraints {
        return Err(Refusal::ConstraintCount);
    }
    if bits::field(file, 15, 1) != form.grid_spare() {
        return Err(Refusal::SpareBits);
    }
    let size = GridSize {
        header: form.grid_header_bits(),
        nodes,
        constraints,
    };
    if file.len() != size.file_bytes() {
        return Err(Refusal::FileLength);
    }
    Ok(())
}
