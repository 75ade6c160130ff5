// A grid's file as long as its header says, so that its length is not looked at again.
ghost use Rattle.std.specs.Prelude.{◌≡◌};
ghost use Rattle.tariff.specs.Refusals.{passed, first};
ghost use Rattle.layouts.specs.GridFile.{grid_form_in};
ghost use Rattle.grid_rules.specs.ReadGrid.{grid_size_checks};
ghost use Rattle.grid_rules.specs.Inner.{Counted};

use crate::sizes::GridSize;
use layouts::Form;

// The file's bytes, with the form and the counts that its header tells.
#[derive(Clone, Copy)]
pub struct CountedFile<'a> {
    pub bytes: &'a [u8],
    pub form: Form,
    pub size: GridSize,
    pub ghost counted: { Counted bytes.now size.header size.nodes size.constraints },
}

impl<'a> CountedFile<'a> {
    pub fn of(bytes: &'a [u8]) -> Self
        requires { first (grid_size_checks bytes.now) ≡ passed }
        ensures bytes_kept { result.bytes.now ≡ bytes.now }
        ensures form_in { result.form ≡ grid_form_in bytes.now }
    {
        let form = crate::form_in(bytes);
        let size = GridSize {
            header: form.grid_header_bits(),
            nodes: crate::nodes_in(bytes, form),
            constraints: crate::constraints_in(bytes),
        };
        CountedFile { bytes, form, size }
    }
}
