// Answers as text, each word with a space before it.
ghost use Rattle.std.specs.Prelude.{◌≤◌};
ghost use Rattle.cases.specs.declared.answers.TheConstants.{TEXT};

use report::Numbers;
use std::fmt;

// What a call answers by numbers.
#[derive(Clone, Copy)]
pub(crate) enum Outcome {
    // with its number and values
    Refused(Numbers),
    // vertices, transitions and loops
    Accepted(u64, u64, u64),
    Done,
    // the length of what was written, of the chart and of the others
    Written(u64),
    Length(u64),
    // the follower's word, whether the end is reached, and how many actions are offered
    Followed(u64, bool, u64),
}

impl Outcome {
    // A refusal if the numbers say so, and else the outcome.
    fn unless_refused(self, numbers: Numbers) -> Outcome {
        if numbers.n == 0 {
            self
        } else {
            Outcome::Refused(numbers)
        }
    }

    pub(crate) fn verdict(numbers: Numbers) -> Outcome {
        Outcome::Accepted(numbers.p, numbers.q, numbers.r).unless_refused(numbers)
    }

    pub(crate) fn done(numbers: Numbers) -> Outcome {
        Outcome::Done.unless_refused(numbers)
    }

    pub(crate) fn written(numbers: Numbers) -> Outcome {
        Outcome::Written(numbers.p).unless_refused(numbers)
    }

    pub(crate) fn length(numbers: Numbers) -> Outcome {
        Outcome::Length(numbers.p).unless_refused(numbers)
    }

    pub(crate) fn followed(numbers: Numbers) -> Outcome {
        Outcome::Followed(numbers.p, numbers.q == 1, numbers.r).unless_refused(numbers)
    }
}

impl fmt::Display for Outcome {
    fn fmt<W: fmt::Write>(&self, f: &mut fmt::Formatter<W>) -> fmt::Result {
        match self {
            Outcome::Refused(Numbers { n, p, q, r }) => write!(f, " refused {n} {p} {q} {r}"),
            Outcome::Accepted(vertices, transitions, loops) => {
                write!(f, " accepted {vertices} {transitions} {loops}")
            }
            Outcome::Done => write!(f, " done"),
            Outcome::Written(length) => write!(f, " written {length}"),
            Outcome::Length(length) => write!(f, " length {length}"),
            Outcome::Followed(word, end, offered) => {
                let word = match word {
                    0 => "not possible",
                    1 => "taken",
                    _ => "spoilt",
                };
                let end = if *end { "yes" } else { "no" };
                write!(f, " {word} {end} {offered}")
            }
        }
    }
}

// Bytes as two hexadecimal digits each.
#[derive(Clone, Copy)]
pub(crate) struct Bytes<'a>(pub(crate) &'a [u8]);

// A table and not `{:02X}`, which takes several times as long.
static DIGITS: [&str; 16] = [
    "0", "1", "2", "3", "4", "5", "6", "7", "8", "9", "A", "B", "C", "D", "E", "F",
];

impl fmt::Display for Bytes<'_> {
    fn fmt<W: fmt::Write>(&self, f: &mut fmt::Formatter<W>) -> fmt::Result {
        if self.0.is_empty() {
            return write!(f, " nothing");
        }
        for byte in self.0 {
            f.write_str(" ")?;
            f.write_str(DIGITS[usize::from(byte / 16)])?;
            f.write_str(DIGITS[usize::from(byte % 16)])?;
        }
        Ok(())
    }
}

// The answer to a call.
#[derive(Clone, Copy)]
pub(crate) enum Answer<'a> {
    Outcome(Outcome),
    Bytes(Bytes<'a>),
    // the outcome, and the bytes that were lent to write to
    Filled(Outcome, Bytes<'a>),
    NotUnderstood,
}

impl fmt::Display for Answer<'_> {
    fn fmt<W: fmt::Write>(&self, f: &mut fmt::Formatter<W>) -> fmt::Result {
        match self {
            Answer::Outcome(outcome) => write!(f, "{outcome}"),
            Answer::Bytes(bytes) => write!(f, "{bytes}"),
            Answer::Filled(outcome, bytes) => write!(f, "{outcome}, left{bytes}"),
            Answer::NotUnderstood => write!(f, " not understood"),
        }
    }
}

// An answer's text is cut at so many bytes, so that a table has the same answers as ever.
const TEXT: usize = 4096;

// The text of an answer. Where it is cut, writing answers an error, so that no more is formatted.
#[derive(Drop)]
pub(crate) struct Text {
    bytes: [u8; TEXT],
    count: usize,
    ghost fits: { count ≤ TEXT },
}

impl Text {
    pub(crate) fn new() -> Self {
        Text {
            bytes: [0; TEXT],
            count: 0,
        }
    }

    pub(crate) fn as_bytes(&self) -> &[u8] {
        &self.bytes[..self.count]
    }
}

impl fmt::Write for Text {
    fn write_str(&mut self, part: &str) -> fmt::Result {
        for byte in part.as_bytes() {
            if self.count == TEXT {
                return Err(fmt::Error);
            }
            self.bytes[self.count] = *byte;
            self.count += 1;
        }
        Ok(())
    }
}
