// What a line of the table says.
use crate::records::{Edit, Part};
use crate::words::{next_word, number};

// A line of the table; the word that it begins with says which.
#[derive(Clone, Copy)]
pub(crate) enum Line<'a> {
    // a record's name and its bytes, and the file; the lines below change that part
    Record(Part, &'a [u8]),
    File,
    Change(Edit<'a>),
    Keep,
    // with its name
    Case(&'a [u8]),
    // with the bytes to lend
    Lend(&'a [u8]),
    // a remark, or a line without words
    Remark,
    Call(Call<'a>),
}

// A call, with what it is given.
#[derive(Clone, Copy)]
pub(crate) enum Call<'a> {
    Check,
    Leaving(usize),
    // vertex and level
    Take(usize, usize),
    // the bytes of the list, and what follows on the line
    Together(&'a [u8]),
    Left,
    // how many bytes are lent, as in the next two
    Write(usize),
    Expression(usize),
    Way(usize),
    Follow(Step),
    FollowByValue(Step),
    NotUnderstood,
}

// What a follower is given: a restart, or an event's action.
#[derive(Clone, Copy)]
pub(crate) enum Step {
    Restart,
    Event(u8),
}

fn size(text: &[u8]) -> usize {
    number(text) as usize
}

// The action of an event.
fn action(text: &[u8]) -> u8 {
    (number(text) % 256) as u8
}

// `restart`, or any other word with an action behind it.
fn parse_step(text: &[u8]) -> Step {
    match next_word(text) {
        (b"restart", _) => Step::Restart,
        (_, rest) => Step::Event(action(rest)),
    }
}

fn parse_repeat(rest: &[u8]) -> Edit {
    let (count, rest) = next_word(rest);
    let (back, steps) = next_word(rest);
    Edit::Repeat {
        count: number(count),
        back: number(back),
        steps,
    }
}

impl<'a> From<&'a [u8]> for Call<'a> {
    fn from(text: &'a [u8]) -> Self {
        let (word, rest) = next_word(text);
        match word {
            b"check" => Call::Check,
            b"leaving" => Call::Leaving(size(rest)),
            b"take" => Call::Take(size(rest), size(next_word(rest).1)),
            b"together" => Call::Together(rest),
            b"left" => Call::Left,
            b"write" => Call::Write(size(rest)),
            b"expression" => Call::Expression(size(rest)),
            b"way" => Call::Way(size(rest)),
            b"restart" => Call::Follow(Step::Restart),
            b"event" => Call::Follow(Step::Event(action(rest))),
            b"by" => Call::FollowByValue(parse_step(next_word(rest).1)),
            _ => Call::NotUnderstood,
        }
    }
}

impl<'a> From<&'a [u8]> for Line<'a> {
    fn from(text: &'a [u8]) -> Self {
        let (word, rest) = next_word(text);
        match word {
            b"nodes" => Line::Record(Part::Nodes, rest),
            b"chart" => Line::Record(Part::Chart, rest),
            b"labels" => Line::Record(Part::Labels, rest),
            b"relation" => Line::Record(Part::Relation, rest),
            b"file" => Line::File,
            b"more" => Line::Change(Edit::More(rest)),
            b"repeat" => Line::Change(parse_repeat(rest)),
            b"at" => Line::Change(Edit::At(number(rest), next_word(rest).1)),
            b"row" => Line::Change(Edit::At(16 * number(rest), next_word(rest).1)),
            b"cut" => Line::Change(Edit::Cut(number(rest))),
            b"keep" => Line::Keep,
            b"case" => Line::Case(rest),
            b"standing" | b"state" => Line::Lend(rest),
            b"#" | b"" => Line::Remark,
            _ => Line::Call(Call::from(text)),
        }
    }
}
