//! The answer to a sheet's text: the verdict on the sheet that it says, or the number of a refusal, and its printed form.

#![tactic(auto)]

ghost use Rattle.weigh_text.specs.TextPromised.{TextPromised};

use printer::put_answer;

mod front;
mod text;

pub use front::front_verdict;
pub use text::text_verdict;

/// No answer is longer.
pub const MOST_ANSWER: usize = 256;

/// Puts the answer to a text at the front of `out`, where it fits, and answers its length; where it does not fit nothing is
/// written.
pub fn weigh_text(text: &[u8], out: &mut [u8]) -> usize
    ensures { TextPromised text.now out.old out.new result }
{
    put_answer(text_verdict(text), out)
}
