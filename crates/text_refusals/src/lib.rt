// The sentence of a refusal's number, into a lent place.
#![tactic(auto)]

ghost use Rattle.lists.specs.Lent.{before, after};
ghost use Rattle.text_refusals.specs.RefusalText.{text_call, WritesText};

use tariff::Refusal;

mod sentences;

// The last number that has a sentence.
const LAST: u64 = 27;

// Writes the sentence of a number into the first bytes of `text`: nothing for a number that no refusal has. Check: 9.
pub fn refusal_text(number: u64, text: &mut [u8]) -> Result<usize, Refusal>
    ensures { WritesText (text_call number (before text)) result (after text) }
{
    if LAST < number {
        return Ok(0);
    }
    let start = sentences::end(number as usize);
    let end = sentences::end(number as usize + 1);
    if text.len() < end - start {
        return Err(Refusal::ShortTable);
    }
    Ok(sentences::put_part(text, start, end))
}
