// A line as a command, whose words stay parts of the line.
ghost use Rattle.std.specs.Prelude.{◌≡◌};
ghost use Rattle.lines.specs.Parts.{rest_words};
ghost use Rattle.lines.specs.Commands.{asked, line_command, post_command, list_command};

use crate::fault::LineFault;
use crate::words::Words;

#[derive(Clone, Copy)]
pub enum Command<'a> {
    // P member code lots
    Post {
        member: &'a [u8],
        code: &'a [u8],
        lots: &'a [u8],
    },
    // L member
    List {
        member: &'a [u8],
    },
}

impl<'a> Command<'a> {
    // Not a TryFrom, whose promise would be a ghost member of the impl and no clause.
    pub fn read(line: &'a [u8]) -> Result<Command<'a>, LineFault>
        ensures { asked result ≡ line_command line.now }
    {
        let mut words = Words::of(line);
        match words.next()? {
            [b'P'] => Command::post(words),
            [b'L'] => Command::list(words),
            _ => Err(LineFault::Malformed),
        }
    }

    // A posting, by the words behind its letter.
    fn post(mut words: Words<'a>) -> Result<Command<'a>, LineFault>
        ensures { asked result ≡ post_command (rest_words words.entry) }
    {
        let member = words.next()?;
        let code = words.next()?;
        let lots = words.next()?;
        words.end()?;
        Ok(Command::Post { member, code, lots })
    }

    // A listing, by the words behind its letter.
    fn list(mut words: Words<'a>) -> Result<Command<'a>, LineFault>
        ensures { asked result ≡ list_command (rest_words words.entry) }
    {
        let member = words.next()?;
        words.end()?;
        Ok(Command::List { member })
    }
}
