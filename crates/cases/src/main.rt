// Runs the cases of a table that it reads on standard input; the file `stdin` beside this folder is one, and says at
// its head how it is written. Each call of a case writes the case's name, the call, the answer and whether it is the
// expected one; the last line counts.
#![tactic(auto)]

mod answers;
mod lent;
mod lines;
mod records;
mod words;

use answers::{Answer, Bytes, Outcome, Text};
use follower::{Follower, Moved};
use lent::Lent;
use lines::{Call, Line, Step};
use records::{Edit, MEMORY, Part, Parts};
use report::Numbers;
use std::array;
use std::fmt::Write;
use std::io::{Write as _, writer};
use words::{split_once, write_hex};

// The descriptor, as the kit's `io` names it.
const STANDARD_INPUT: i32 = 0;

// The program's limits, in bytes. What is longer is cut there, so that a table has the same answers as ever: the table
// itself, and a list of loops.
const TABLE: usize = 65_536;

const LOOPS: usize = 160;

// At most so many bytes are lent for the expression's chart, for the expression of a chart and for the shortest way.
const CHART: usize = 4096;

const NODES: usize = 520;

const WAY: usize = 160;

// What the lines have made so far.
#[derive(Drop)]
struct State<'a> {
    parts: Parts<'a>,
    // the one that lines write to
    part: Part,
    // of the case
    name: &'a [u8],
    // what is lent to the calls that change bytes, the standing bytes or a follower's state
    lent: Lent,
    // how many calls were run, and how many answered as expected
    run: u64,
    passed: u64,
}

// The state that bytes hold, with zeros for those that are not there.
fn follower_in(bytes: &[u8]) -> Follower {
    let byte = |i: usize| bytes.get(i).copied().unwrap_or(0);
    Follower {
        set: array::from_fn(byte),
        mark: byte(16),
    }
}

// Writes one call with its answer; says whether that is what the line expects.
fn judge(rt: &impl Print, name: &[u8], line: &[u8], answer: &[u8]) -> std::io::Result<bool> {
    let (call, expected) = match line.iter().position(|byte| *byte == b'=') {
        Some(equals) => line.split_at(equals + 1),
        None => line.split_at(line.len()),
    };
    let as_expected = answer == expected;
    let mut out = writer(rt);
    out.write_all(name)?;
    out.write_all(b": ")?;
    out.write_all(call)?;
    out.write_all(answer)?;
    if as_expected {
        out.write_all(b", as expected\n")?;
    } else {
        out.write_all(b", NOT")?;
        out.write_all(expected)?;
        out.write_all(b"\n")?;
    }
    Ok(as_expected)
}

impl<'a> State<'a> {
    fn new(memory: &'a mut [u8; MEMORY]) -> Self {
        State {
            parts: Parts::new(memory),
            part: Part::Nodes,
            name: b"",
            lent: Lent::nothing(),
            run: 0,
            passed: 0,
        }
    }

    fn chart(&self) -> &[u8] {
        self.parts.body(Part::Chart)
    }

    fn labels(&self) -> &[u8] {
        self.parts.body(Part::Labels)
    }

    fn check(&self) -> Outcome {
        let verdict = verdict::check(self.parts.body(Part::File));
        Outcome::verdict(Numbers::from(verdict))
    }

    // Takes out one loop.
    fn take(&mut self, vertex: usize, level: usize) -> Outcome {
        let chart = self.parts.body(Part::Chart);
        let labels = self.parts.body(Part::Labels);
        let removed = elimination::remove(chart, labels, vertex, level, self.lent.as_mut_slice());
        Outcome::done(Numbers::from(removed))
    }

    // Takes out the loops of a list.
    fn take_together(&mut self, text: &[u8]) -> Outcome {
        let (text, _) = split_once(text, b'=');
        let mut loops = [0; LOOPS];
        let count = write_hex(&mut loops, text).min(LOOPS);
        let chart = self.parts.body(Part::Chart);
        let labels = self.parts.body(Part::Labels);
        let lent = self.lent.as_mut_slice();
        let removed = elimination::remove_together(chart, labels, &loops[..count], lent);
        Outcome::done(Numbers::from(removed))
    }

    // The follower's answer, of the lent state.
    fn follow(&mut self, step: Step) -> Outcome {
        let chart = self.parts.body(Part::Chart);
        let followed = match step {
            Step::Restart => follower::restart_lent(chart, self.lent.as_mut_slice()),
            Step::Event(action) => follower::event_lent(chart, self.lent.as_mut_slice(), action),
        };
        Outcome::followed(Numbers::from(followed))
    }

    // The same by value: the state is handed over, lent on to the function that updates it where it stands, and what is
    // handed back becomes the lent bytes.
    fn follow_by_value(&mut self, step: Step) -> Outcome {
        let chart = self.parts.body(Part::Chart);
        let Moved { answer, follower } = match step {
            Step::Restart => follower::restart_through(follower::restart(chart).follower, chart),
            Step::Event(action) => {
                follower::event_through(follower_in(self.lent.as_slice()), chart, action)
            }
        };
        let Follower { set, mark } = follower;
        let lent = self.lent.as_mut_slice();
        for (place, byte) in lent.iter_mut().zip(set.iter().chain(&[mark])) {
            *place = *byte;
        }
        Outcome::followed(Numbers::from(answer))
    }

    // Writes the expression's chart to as many bytes; where it is written, it becomes the chart.
    fn write_chart(&mut self, lent: usize) -> Outcome {
        let mut room = [0; CHART];
        let out = &mut room[..lent.min(CHART)];
        let written = expression::write_chart(self.parts.body(Part::Nodes), out);
        let outcome = Outcome::written(Numbers::from(written));
        if let Outcome::Written(length) = outcome {
            let length = out.len().min(length as usize);
            self.parts.replace(Part::Chart, &out[..length]);
        }
        outcome
    }

    // Writes the expression of the chart and its labels to some bytes; where it is written, it becomes the nodes.
    fn write_expression(&mut self, out: &mut [u8]) -> Outcome {
        let extracted = extraction::write_expression(self.chart(), self.labels(), out);
        let outcome = Outcome::length(Numbers::from(extracted));
        if let Outcome::Length(length) = outcome {
            let length = out.len().min(length as usize);
            self.parts.replace(Part::Nodes, &out[..length]);
        }
        outcome
    }

    // Writes the shortest way from the lent state to some bytes.
    fn shortest_way(&self, out: &mut [u8]) -> Outcome {
        let way = follower::shortest_way(self.chart(), self.lent.as_slice(), out);
        Outcome::length(Numbers::from(way))
    }

    // Answers a call; the room is lent to those that write bytes which the answer shows.
    fn answer<'s>(&'s mut self, call: Call, room: &'s mut [u8; NODES]) -> Answer<'s> {
        if self.part != Part::File {
            self.parts.join();
        }
        match call {
            Call::Check => Answer::Outcome(self.check()),
            Call::Leaving(vertex) => Answer::Bytes(Bytes(chart::leaving(self.chart(), vertex))),
            Call::Take(vertex, level) => Answer::Outcome(self.take(vertex, level)),
            Call::Together(loops) => Answer::Outcome(self.take_together(loops)),
            Call::Left => Answer::Bytes(Bytes(self.lent.as_slice())),
            Call::Write(lent) => Answer::Outcome(self.write_chart(lent)),
            Call::Expression(lent) => {
                let out = &mut room[..lent.min(NODES)];
                Answer::Filled(self.write_expression(out), Bytes(out))
            }
            Call::Way(lent) => {
                let out = &mut room[..lent.min(WAY)];
                Answer::Filled(self.shortest_way(out), Bytes(out))
            }
            Call::Follow(step) => Answer::Outcome(self.follow(step)),
            Call::FollowByValue(step) => Answer::Outcome(self.follow_by_value(step)),
            Call::NotUnderstood => Answer::NotUnderstood,
        }
    }

    // Runs a line's call, and counts it.
    fn call(&mut self, rt: &impl Print, line: &[u8], call: Call) -> std::io::Result<()> {
        let mut room = [0xEE; NODES];
        let mut text = Text::new();
        // an error says that the text is cut
        let _ = write!(text, "{}", self.answer(call, &mut room));
        let as_expected = judge(rt, self.name, line, text.as_bytes())?;
        self.run = self.run.saturating_add(1);
        if as_expected {
            self.passed = self.passed.saturating_add(1);
        }
        Ok(())
    }

    // Does what a line says.
    fn obey(&mut self, rt: &impl Print, line: &'a [u8]) -> std::io::Result<()> {
        match Line::from(line) {
            Line::Record(part, bytes) => {
                self.part = part;
                self.parts.edit(part, Edit::Replace(bytes));
            }
            Line::File => {
                self.part = Part::File;
                self.parts.join();
            }
            Line::Change(edit) => self.parts.edit(self.part, edit),
            Line::Keep => self.parts.keep(),
            Line::Case(name) => {
                self.name = name;
                self.parts.restore();
            }
            Line::Lend(text) => self.lent.write(text),
            Line::Remark => {}
            Line::Call(call) => self.call(rt, line, call)?,
        }
        Ok(())
    }
}

fn main(rt: HostRuntime) -> std::io::Result<()> {
    let mut table = [0; TABLE];
    // a read that fails ends the table
    let length = io::read_full(STANDARD_INPUT, &mut table);
    let mut memory = [0; MEMORY];
    let mut state = State::new(&mut memory);
    for line in table[..length].split(|byte| *byte == b'\n') {
        state.obey(&rt, line)?;
    }
    let State { run, passed, .. } = state;
    println!(rt; "{passed} of {run} calls as expected")
}
