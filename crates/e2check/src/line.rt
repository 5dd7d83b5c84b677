//! One line of input: its message, judged.
ghost use Rattle.std.specs.Prelude.{◌≡◌, ◌||◌, IfOk, IfErr, ◌==◌};
ghost use Rattle.hexadecimal.specs.declared.DecodeError.TheVariants.{NoMemory};
ghost use Rattle.request.specs.Askings.{reading_of};
ghost use Rattle.e2check.specs.Lines.{content, judged, has_message, read_further};

use e2::{Command, check};
use hexadecimal::{DecodeError, decode};
use refusal::Refusal;
use request::asking::{Rejection, Request};
use std::fmt;

/// What is said of a line.
// Not options and results of one another: these are four cases of one kind, and three deep they would lose their names.
#[derive(Clone, Copy, PartialEq, Eq, Debug)]
pub enum Judged {
    /// It holds no message.
    Nothing,
    /// A sound request, and how many bytes it has.
    Sound(Command, usize),
    /// A message that is not read as a request.
    Refused(Refusal),
    /// In this column, counted from 1, stands no hexadecimal digit, or the second digit of a byte is wanting.
    NotHex(usize),
}

impl Judged {
    /// Whether the line holds a message.
    pub fn has_message(self) -> bool
        ensures { result ≡ has_message self }
    {
        matches!(self, Judged::Sound(_, _) | Judged::Refused(_))
    }

    /// What is said of the message once it is read to its end.
    pub fn read_further<'a>(self, reading: &Result<Request<'a>, Rejection<'a>>) -> Judged
        ensures { result ≡ read_further self (reading_of reading.now) }
    {
        match reading {
            Ok(_) => self,
            Err(rejection) => Judged::Refused(rejection.refusal),
        }
    }
}

impl fmt::Display for Judged {
    fn fmt<W: fmt::Write>(&self, f: &mut fmt::Formatter<W>) -> fmt::Result {
        match *self {
            Judged::Nothing => Ok(()),
            Judged::Sound(command, size) => write!(f, "sound {command}, {size} bytes"),
            Judged::Refused(refusal) => {
                let number = refusal.number();
                write!(f, "refused {number}, {refusal}")
            }
            Judged::NotHex(column) => write!(f, "not hexadecimal at column {column}"),
        }
    }
}

/// Whether the line is read no further here.
fn is_end(c: u8) -> bool
    ensures { result ≡ (c == 0x23 || c == 0x0A) }
{
    matches!(c, b'#' | b'\n')
}

/// The line up to its comment or its end.
fn content(line: &[u8]) -> &[u8]
    ensures { result.now ≡ content line.now }
{
    let end = line.iter().position(|c| is_end(*c)).unwrap_or(line.len());
    &line[..end]
}

/// Judges a line. `message` is room for its bytes, lent so that no line asks for memory of its own. The only error is want of memory.
pub fn judge(line: &[u8], message: &mut Vec<u8>) -> Result<Judged, DecodeError>
    ensures is { IfOk result (λ j. j ≡ judged line.now) }
    ensures memory { IfErr result (λ e. e ≡ NoMemory) }
{
    message.clear();
    match decode(content(line), message) {
        Err(DecodeError::NotHex(column)) => return Ok(Judged::NotHex(column)),
        decoded => decoded?,
    }
    if message.is_empty() {
        return Ok(Judged::Nothing);
    }
    match check(message.as_slice()) {
        Ok(command) => Ok(Judged::Sound(command, message.len())),
        Err(refusal) => Ok(Judged::Refused(refusal)),
    }
}

#[cfg(test)]
mod tests {
    use super::*;
    use std::test::Fail;

    // A message of 20 bytes: a header alone, of a User-Data-Request.
    const HEADER: &[u8] = b"01000014 80000132 0100000F 00000000 00000000";

    #[test]
    fn lines_are_judged(rt: HostRuntime) -> Result<(), Fail> {
        let mut message = Vec::new(rt.alloc());
        assert_eq!(rt;
            judge(HEADER, &mut message)?,
            Judged::Sound(Command::UserData, 20)
        );
        assert_eq!(rt; judge(b"  # no message\n", &mut message)?, Judged::Nothing);
        assert_eq!(rt;
            judge(b"01 # one byte\n", &mut message)?,
            Judged::Refused(Refusal::WrongSize)
        );
        assert_eq!(rt; judge(b"", &mut message)?, Judged::Nothing);
        Ok(())
    }

    // A line that is not hexadecimal is told by its column, and the next one is judged as if it had not been.
    #[test]
    fn bad_lines_do_not_stop_the_rest(rt: HostRuntime) -> Result<(), Fail> {
        let mut message = Vec::new(rt.alloc());
        assert_eq!(rt; judge(b"01 0g 00\n", &mut message)?, Judged::NotHex(5));
        assert_eq!(rt; judge(b"010\n", &mut message)?, Judged::NotHex(4));
        assert_eq!(rt;
            judge(HEADER, &mut message)?,
            Judged::Sound(Command::UserData, 20)
        );
        Ok(())
    }
}
