// The table of on-peak hours as text (document 02, paper 1), each count worked out by the rule.
#![tactic(auto)]

ghost use Rattle.std.specs.Prelude.{◌+◌, ◌*◌, ◌≤◌, length};
ghost use Rattle.lists.specs.Lent.{before, after};
ghost use Rattle.text_format.specs.Inner.{HasRoom, Puts};
ghost use Rattle.date_rules.specs.OnPeak.{hoursADay};
ghost use Rattle.date_text.specs.TableText.{count_line, table_bytes, PutsTable};

use dates::FIRST_YEAR;
use text_format::Text;

// 28 years.
const ENTRIES: u64 = 336;

pub const TABLE_BYTES: usize = 4 * 336;

// The line of a count.
fn put_count(text: &mut Text, hours: u64)
    requires { (hours ≤ hoursADay * 31) × HasRoom text.old 4 }
    ensures put { Puts text.old (count_line hours) text.new }
    ensures upper_bound { text.new.at ≤ text.old.at + 4 }
{
    text.put_decimal(hours);
    text.put_char(b'\n');
}

// The table at the buffer's front, a count a line; gives its bytes.
pub fn put_table(buf: &mut [u8]) -> usize
    requires { table_bytes ≤ length buf.old }
    ensures puts_table { PutsTable (before buf) result (after buf) }
    ensures upper_bound { result ≤ table_bytes }
{
    let mut text = Text { buf, at: 0 };
    for k in 0..ENTRIES {
        let hours = date_on_peak::hours_by_rule(FIRST_YEAR + k / 12, 1 + k % 12);
        put_count(&mut text, hours);
    }
    text.at
}
