// The interface for C by its number, and a refusal by its sentence: the length goes into a lent cell, and the answer is the refusal's number, 0 for none.
// C calls each operation by a name of its own and with raw parameters, so a body that only passes the answer on is written out for each.
#![tactic(auto)]

ghost use Rattle.lists.specs.Lent.{before, after};
ghost use Rattle.text_refusals.specs.RefusalText.{text_call, WritesTextForC};
ghost use Rattle.c_interface.specs.Interface.{TellsInterface};

// The number of this interface: include/crr.h has it as CRR_INTERFACE.
const INTERFACE: u64 = 2;

// Gives the number of the interface that the library has.
#[unsafe(no_mangle)]
pub extern "C" fn crr_interface() -> u64
    ensures { TellsInterface result }
{
    INTERFACE
}

// Writes the sentence of a refusal's number into the first bytes of `text`, and gives its length.
#[unsafe(no_mangle)]
pub extern "C" fn crr_refusal_text(number: u64, text: &mut [u8], bytes: &mut usize) -> u64
    ensures { WritesTextForC (text_call number (before text)) result (after text) bytes }
{
    let answer = text_refusals::refusal_text(number, text);
    tariff::answer_cell(answer, bytes)
}
