// Prints the on-peak hours of each month, January 2010 to December 2037, a count a line, worked out by the rule.
#![tactic(auto)]

use date_text::TABLE_BYTES;

fn main(rt: HostRuntime) {
    let mut text = [0u8; TABLE_BYTES];
    let bytes = date_text::put_table(&mut text);
    files::print(&rt, &text[..bytes]);
}
