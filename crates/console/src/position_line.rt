// One position as a line.
ghost use Rattle.std.specs.Prelude.{◌≡◌, Some};
ghost use Rattle.ordered.specs.Keys.{content};
ghost use Rattle.console.specs.Texts.{position_text, pair_text};
ghost use Rattle.console.specs.Positions.{line_text};

use crate::text::Text;
use codes::Member;
use ordered::Key;
use std::fmt;

#[derive(Clone, Copy)]
pub(crate) struct PositionLine<'a> {
    pub(crate) member: &'a [u8],
    pub(crate) code: &'a [u8],
    pub(crate) lots: i64,
}

impl<'a> PositionLine<'a> {
    // A position by its key, whose first four bytes are the member.
    pub(crate) fn of(key: &'a Key, lots: i64) -> PositionLine<'a>
        ensures { line_text result ≡ pair_text (content key.now, lots) }
    {
        let bytes = key.as_bytes();
        let (member, code) = bytes.split_at(bytes.len().min(Member::LEN));
        PositionLine { member, code, lots }
    }
}

impl fmt::Display for PositionLine<'_> {
    ghost output = { λ p. Some (position_text p.member.now p.code.now p.lots) };

    fn fmt<W: fmt::Write>(&self, f: &mut fmt::Formatter<W>) -> fmt::Result {
        let member = Text(self.member);
        let code = Text(self.code);
        let lots = self.lots;
        write!(f, "POS {member} {code} {lots}")
    }
}
