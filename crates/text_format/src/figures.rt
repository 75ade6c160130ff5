// Figures in decimal digits. Not by `Display`: only a text in a `String` has promised bytes, and there is no heap.
ghost use Rattle.std.specs.Prelude.{◌≡◌, ◌+◌, ◌≤◌, length};
ghost use Rattle.lists.specs.Lent.{after};
ghost use Rattle.text_format.specs.Decimal.{decimal, decimal_z};
ghost use Rattle.text_format.specs.Inner.{HasRoom, Puts};

use crate::Text;

// How many decimal digits `n` has, four at a time as far as that goes.
fn count_digits(n: u64) -> usize
    ensures { (result ≡ length (decimal n)) × (result ≤ 20) }
{
    let mut rest = n;
    let mut count = 1;
    // No `for`: how often is what is asked.
    while 10000 <= rest {
        rest = rest / 10000;
        count += 4;
    }
    if rest < 10 {
        count
    } else if rest < 100 {
        count + 1
    } else if rest < 1000 {
        count + 2
    } else {
        count + 3
    }
}

// Stores the digits of `n` into a place for just so many, from the last to the first. By index: over `iter_mut().rev()`, which was tried, the invariant would
// speak of cells that are still lent.
fn store_digits(place: &mut [u8], n: u64)
    requires { length place.old ≡ length (decimal n) }
    ensures { after place ≡ decimal n }
{
    let mut rest = n;
    for k in (0..place.len()).rev() {
        place[k] = b'0' + (rest % 10) as u8;
        rest = rest / 10;
    }
}

impl Text<'_> {
    pub fn put_decimal(&mut self, n: u64)
        requires { HasRoom self.old (length (decimal n)) }
        ensures put { Puts self.old (decimal n) self.new }
        ensures upper_bound { self.new.at ≤ self.old.at + 20 }
    {
        let end = self.at + count_digits(n);
        store_digits(&mut self.buf[self.at..end], n);
        self.at = end;
    }

    pub fn put_signed(&mut self, z: i64)
        requires { HasRoom self.old (length (decimal_z z)) }
        ensures put { Puts self.old (decimal_z z) self.new }
        ensures upper_bound { self.new.at ≤ self.old.at + 21 }
    {
        if z < 0 {
            self.put_char(b'-');
        }
        self.put_decimal(z.unsigned_abs());
    }
}
