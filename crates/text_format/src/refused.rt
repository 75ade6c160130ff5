// The one line of a refusal.
ghost use Rattle.std.specs.Prelude.{◌+◌, length};
ghost use Rattle.text_format.specs.RefusedLine.{refused_line_of};
ghost use Rattle.text_format.specs.Inner.{HasRoom, Puts};

use crate::Text;
use tariff::Refusal;

impl Text<'_> {
    // Puts the line of a refused file.
    pub fn put_refused(&mut self, file: &[u8], refusal: Refusal)
        requires { HasRoom self.old (12 + length file.now) }
        ensures { Puts self.old (refused_line_of file.now refusal) self.new }
    {
        self.put(b"refused,");
        self.put(file);
        self.put_char(b',');
        self.put_decimal(refusal.number());
        self.put_char(b'\n');
    }
}
