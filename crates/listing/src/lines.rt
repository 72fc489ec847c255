// The lines of an answer. A field ends in a space, the last one of a line in a line feed.
ghost use Rattle.std.specs.Prelude.{◌*◌, ◌≤◌, length};
ghost use Rattle.listing.specs.Adds.{Adds};
ghost use Rattle.listing.specs.Text.{counts_line, thrift_line, slot_line, slot_lines};
ghost use Rattle.listing.specs.Text.{refusal_line, answer_text, max_line_length, max_length};
ghost use Rattle.refusals.specs.Answer.{gives};
ghost use Rattle.requests.specs.Promise.{planned as Promise·planned};
ghost use Rattle.settings.specs.Refusals.{limit};

use crate::put::Text;
use refusals::Refusal;
use requests::PlanCounts;
use settings::CountRange;

const SPACE: u8 = b' ';

const LINE_FEED: u8 = b'\n';

impl Text<'_> {
    // The line of a count range, with its name before it.
    fn counts_line(&mut self, name: &[u8], range: CountRange)
        ensures { Adds (counts_line name.now range) self.old self.new }
    {
        self.word(name, SPACE);
        self.number(range.least, SPACE);
        self.number(range.most, LINE_FEED)
    }

    // The line of the thrift.
    fn thrift_line(&mut self, thrift: u16)
        ensures { Adds (thrift_line thrift) self.old self.new }
    {
        self.word(b"thrift", SPACE);
        self.number(thrift, LINE_FEED)
    }

    // The line of a slot.
    fn slot_line(&mut self, i: usize, lowest: i32, highest: i32, mark: u8)
        ensures { Adds (slot_line i lowest highest mark) self.old self.new }
    {
        self.number(i, SPACE);
        self.number(lowest, SPACE);
        self.number(highest, SPACE);
        self.number(mark, LINE_FEED)
    }

    // The lines of all slots, up to the end of the shortest slice.
    fn slot_lines(&mut self, lowest: &[i32], highest: &[i32], marks: &[u8])
        requires { self.old.place ≤ length self.old.out.now }
        ensures written { Adds (slot_lines 0 lowest.now highest.now marks.now) self.old self.new }
        ensures short { length lowest.now ≤ limit →
            length (slot_lines 0 lowest.now highest.now marks.now)
            ≤ max_line_length * limit }
    {
        for (i, ((lo, hi), mark)) in lowest.iter().zip(highest).zip(marks).enumerate() {
            self.slot_line(i, *lo, *hi, *mark)
        }
    }

    // The lines of an answer, and of what the slices hold.
    pub(crate) fn answer(
        &mut self,
        answer: Result<Option<PlanCounts>, Refusal>,
        lowest: &[i32],
        highest: &[i32],
        marks: &[u8],
    )
        ensures written { Adds (answer_text answer lowest.now highest.now marks.now)
            self.old self.new }
        ensures short { length lowest.now ≤ limit →
            length (answer_text answer lowest.now highest.now marks.now) ≤ max_length }
    {
        match answer {
            Err(refusal) => self.refusal_line(refusal),
            Ok(None) => self.word(b"no plan", LINE_FEED),
            Ok(Some(counts)) => self.planned(counts, lowest, highest, marks),
        }
    }

    // The line of a refusal: its number, and for 31 also the slot.
    pub(crate) fn refusal_line(&mut self, refusal: Refusal)
        ensures written { Adds (refusal_line refusal) self.old self.new }
        ensures short { length (refusal_line refusal) ≤ max_length }
    {
        self.word(b"refused", SPACE);
        match refusal {
            Refusal::Crossed(slot) => {
                self.number(refusal.number(), SPACE);
                self.word(b"slot", SPACE);
                self.number(slot, LINE_FEED)
            }
            _ => self.number(refusal.number(), LINE_FEED),
        }
    }

    // The lines of "planned".
    fn planned(&mut self, counts: PlanCounts, lowest: &[i32], highest: &[i32], marks: &[u8])
        ensures written { Adds
            (answer_text (gives (Promise·planned counts)) lowest.now highest.now marks.now)
            self.old self.new }
        ensures short { length lowest.now ≤ limit → length
            (answer_text (gives (Promise·planned counts)) lowest.now highest.now
            marks.now) ≤ max_length }
    {
        self.counts_line(b"windows", counts.windows);
        self.counts_line(b"covered", counts.covered);
        self.thrift_line(counts.thrift);
        self.slot_lines(lowest, highest, marks)
    }
}
