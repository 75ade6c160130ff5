// Figures, fixed texts and the line of a refusal, put one behind the other into a lent buffer.
#![tactic(auto)]

mod figures;
mod refused;
mod texts;

// A text that is put into a lent buffer: the place behind what stands there. How much room is left is no ghost field of it: each part asks for its own, and each
// put leaves less.
#[derive(Drop)]
pub struct Text<'a> {
    pub buf: &'a mut [u8],
    pub at: usize,
}
