// Characters that are handed in.
ghost use Rattle.std.specs.Prelude.{[], ◌∷◌, length};
ghost use Rattle.text_format.specs.Inner.{HasRoom, Puts};

use crate::Text;

impl Text<'_> {
    pub fn put(&mut self, s: &[u8])
        requires { HasRoom self.old (length s.now) }
        ensures { Puts self.old s.now self.new }
    {
        for i in 0..s.len() {
            self.buf[self.at + i] = s[i];
        }
        self.at += s.len();
    }

    pub fn put_char(&mut self, c: u8)
        requires { HasRoom self.old 1 }
        ensures { Puts self.old (c ∷ []) self.new }
    {
        self.buf[self.at] = c;
        self.at += 1;
    }
}
