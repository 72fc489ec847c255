// The text of an answer, as the plan printer writes it. specs/Text.antt defines it.
#![tactic(auto)]

ghost use Rattle.std.specs.Prelude.{◌≤◌, length};
ghost use Rattle.settings.specs.Refusals.{limit};
ghost use Rattle.listing.specs.Text.{text, refusal_line, max_length};
ghost use Rattle.buffer.specs.Written.{Written};
ghost use Rattle.filter.specs.AnswerMeaning.{outcome_of};

use crate::put::Text;
use refusals::Refusal;
use requests::PlanCounts;

mod lines;
mod put;

// Writes the text of what the filter handed back, and gives its length. Where the buffer is too short, it writes what
// fits and gives the length of the buffer.
#[tactic(auto, unfolding(crate::specs::Text::text))]
pub fn write_answer(
    answer: Result<Option<PlanCounts>, Refusal>,
    lowest: &[i32],
    highest: &[i32],
    marks: &[u8],
    out: &mut [u8],
) -> usize
    ensures written { Written
        (text (outcome_of answer lowest.now highest.now marks.now))
        0 out.old out.new result }
    ensures short { length lowest.now ≤ limit →
        length (text (outcome_of answer lowest.now highest.now marks.now))
        ≤ max_length }
{
    let mut text = Text { out, place: 0 };
    text.answer(answer, lowest, highest, marks);
    text.place
}

// Writes the line of a refusal, such as that of a card that the reader refuses, and gives its length.
pub fn write_refusal(refusal: Refusal, out: &mut [u8]) -> usize
    ensures written { Written (refusal_line refusal) 0 out.old out.new result }
    ensures short { length (refusal_line refusal) ≤ max_length }
{
    let mut text = Text { out, place: 0 };
    text.refusal_line(refusal);
    text.place
}
