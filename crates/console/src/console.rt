// The console: answers lines in turn, over members' positions.
ghost use Rattle.std.specs.Prelude.{◌≡◌};
ghost use Rattle.console.specs.Answers.{line_outcome, line_pairs, post_outcome, post_pairs, said};
ghost use Rattle.lines.specs.Decimals.{lots_number, number_reply};
ghost use Rattle.lines.specs.Parts.{told};
ghost use Rattle.console.specs.Sayings.{answer_text, answers_text};
ghost use Rattle.console.specs.Transcripts.{next_line};

use crate::answer::Answer;
use crate::fault::Fault;
use crate::listing::Listing;
use crate::position_line::PositionLine;
use lines::{Command, LineFault};
use ordered::OrderedIndex;
use positions::Positions;

#[derive(Drop)]
pub(crate) struct Console<I: OrderedIndex<i64> + Drop> {
    pub(crate) positions: Positions<I>,
    // How many lines were answered.
    pub(crate) lines: u64,
}

impl<I: OrderedIndex<i64> + Drop> Console<I> {
    // Answers the next line, or what was wrong with reading it.
    pub(crate) fn answer<'a>(&mut self, line: Result<&'a [u8], LineFault>) -> Answer<'a>
        ensures text { answer_text result ≡ said (next_line self.old.lines) (line_outcome (I.pairs self.old.positions) (I.limit self.old.positions) (told line.entry)) }
        ensures pairs { I.pairs self.new.positions ≡ line_pairs (I.pairs self.old.positions) (I.limit self.old.positions) (told line.entry) }
        ensures limit { I.limit self.new.positions ≡ I.limit self.old.positions }
        ensures lines { self.new.lines ≡ next_line self.old.lines }
    {
        self.lines = self.lines.saturating_add(1);
        // A match: the result of a closure under `unwrap_or_else` may not name the line's lifetime.
        match carry_out(&mut self.positions, line) {
            Ok(answer) => answer,
            Err(fault) => Answer::Refused {
                line: self.lines,
                fault,
            },
        }
    }
}

// Reads a line as a command, and does what it asks.
fn carry_out<'a, I: OrderedIndex<i64> + Drop>(
    positions: &mut Positions<I>,
    line: Result<&'a [u8], LineFault>,
) -> Result<Answer<'a>, Fault>
    ensures outcome { answers_text result ≡ line_outcome (I.pairs positions.old) (I.limit positions.old) (told line.entry) }
    ensures pairs { I.pairs positions.new ≡ line_pairs (I.pairs positions.old) (I.limit positions.old) (told line.entry) }
    ensures limit { I.limit positions.new ≡ I.limit positions.old }
{
    match Command::read(line?)? {
        Command::Post { member, code, lots } => post(positions, member, code, lots),
        Command::List { member } => Ok(Answer::Listed(Listing::of(positions, member)?)),
    }
}

// Posts lots, by their word.
fn post<'a, I: OrderedIndex<i64> + Drop>(
    positions: &mut Positions<I>,
    member: &'a [u8],
    code: &'a [u8],
    lots: &[u8],
) -> Result<Answer<'a>, Fault>
    ensures outcome { answers_text result ≡ post_outcome (I.pairs positions.old) (I.limit positions.old) member.now code.now (number_reply (lots_number lots.now)) }
    ensures pairs { I.pairs positions.new ≡ post_pairs (I.pairs positions.old) (I.limit positions.old) member.now code.now (number_reply (lots_number lots.now)) }
    ensures limit { I.limit positions.new ≡ I.limit positions.old }
{
    let lots = lines::lots(lots)?;
    let lots = positions.post(member, code, lots)?;
    Ok(Answer::Posted(PositionLine { member, code, lots }))
}
