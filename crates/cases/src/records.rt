// The parts that a table's lines write: the four records, and the file that they make.
ghost use Rattle.std.specs.Prelude.{◌*◌, ◌^◌, ◌<◌, ◌≤◌};

use crate::words::write_hex;

#[derive(Clone, Copy, PartialEq, Eq)]
pub(crate) enum Part {
    Nodes,
    Chart,
    Labels,
    Relation,
    File,
}

// The records in their order.
const RECORDS: [Part; 4] = [Part::Nodes, Part::Chart, Part::Labels, Part::Relation];

// How many bytes of the memory a part has, and how many of them are its header, whose first two are its size and the
// third its kind.
const ROOM: usize = 65_536;

const HEADER: usize = 4;

// Where the four records stand that were kept, and behind them the steps of a `repeat`.
const KEPT: usize = 5 * ROOM;

const STEPS: usize = 9 * ROOM;

pub(crate) const MEMORY: usize = 10 * ROOM;

// How many bytes of a chart that a call wrote become the record: those of a line of 4,096 characters, three for each.
const WRITTEN: usize = 4096 / 3;

impl Part {
    fn start(self) -> usize
        ensures { result ≤ 4 * ROOM }
    {
        ROOM * self as usize
    }
}

// What a line does to a part.
#[derive(Clone, Copy)]
pub(crate) enum Edit<'a> {
    // these bytes are all that there are; without bytes nothing changes
    Replace(&'a [u8]),
    // these bytes behind the last one
    More(&'a [u8]),
    // these bytes from an offset on
    At(u32, &'a [u8]),
    // more bytes, each the one that many back plus a step; the steps are taken in turn, none is 0
    Repeat {
        count: u32,
        back: u32,
        steps: &'a [u8],
    },
    // only the first bytes
    Cut(u32),
}

// The parts stand one behind the other in one memory, each with a header, and not each in a room of its own: a line can
// write past a part's end into the next one, and read there what it wrote, which may not change.
#[derive(Drop)]
pub(crate) struct Parts<'a> {
    memory: &'a mut [u8; MEMORY],
}

impl<'a> Parts<'a> {
    pub(crate) fn new(memory: &'a mut [u8; MEMORY]) -> Self {
        Parts { memory }
    }

    // How many bytes a part has.
    fn size(&self, part: Part) -> usize
        ensures { result < ROOM }
    {
        let at = part.start();
        usize::from(u16::from_le_bytes([self.byte(at), self.byte(at + 1)]))
    }

    // A size of 65,536 or more begins at 0 again.
    fn set_size(&mut self, part: Part, size: usize) {
        let at = part.start();
        let [low, high] = ((size % ROOM) as u16).to_le_bytes();
        self.memory[at] = low;
        self.memory[at + 1] = high;
        self.memory[at + 2] = part as u8 + 1;
    }

    // The bytes of a part.
    pub(crate) fn body(&self, part: Part) -> &[u8] {
        let at = part.start() + HEADER;
        let memory = &self.memory[..];
        &memory[at..at + self.size(part)]
    }

    // A byte of the memory, and 0 behind its end.
    fn byte(&self, at: usize) -> u8 {
        self.memory.get(at).copied().unwrap_or(0)
    }

    // Writes a byte to the memory, and drops it behind its end.
    fn put(&mut self, at: usize, byte: u8) {
        if let Some(place) = self.memory.get_mut(at) {
            *place = byte;
        }
    }

    // Writes a text's bytes from a place on, and answers their number.
    fn write(&mut self, at: usize, text: &[u8]) -> usize
        ensures { result < 2 ^ 63 }
    {
        write_hex(&mut self.memory[at.min(MEMORY)..], text)
    }

    // Behind the last step the first one comes again.
    fn repeat(&mut self, at: usize, count: u32, back: u32, steps: &[u8])
        requires { at < 2 ^ 40 }
    {
        self.put(STEPS, 0);
        let given = self.write(STEPS, steps);
        let mut turn = 0;
        for i in 0..count as usize {
            let earlier = self.byte((at + i).saturating_sub(back as usize));
            self.put(at + i, earlier.wrapping_add(self.byte(STEPS + turn)));
            turn = if turn + 1 < given { turn + 1 } else { 0 };
        }
    }

    pub(crate) fn edit(&mut self, part: Part, edit: Edit) {
        let start = part.start() + HEADER;
        let size = self.size(part);
        let size = match edit {
            Edit::Replace(text) => match self.write(start, text) {
                0 => size,
                written => written,
            },
            Edit::More(text) => size + self.write(start + size, text),
            Edit::At(offset, text) => {
                let offset = offset as usize;
                size.max(offset + self.write(start + offset, text))
            }
            Edit::Repeat { count, back, steps } => {
                self.repeat(start + size, count, back, steps);
                size + count as usize
            }
            Edit::Cut(count) => size.min(count as usize),
        };
        self.set_size(part, size);
    }

    // Bytes that a call wrote become a record.
    pub(crate) fn replace(&mut self, part: Part, bytes: &[u8]) {
        let size = bytes.len().min(WRITTEN);
        let start = part.start() + HEADER;
        let memory = &mut self.memory[..];
        memory[start..start + size].copy_from_slice(&bytes[..size]);
        self.set_size(part, size);
    }

    // Puts the file of the four records together.
    pub(crate) fn join(&mut self) {
        let start = Part::File.start() + HEADER;
        let mut end = start;
        for part in RECORDS {
            let from = part.start();
            let size = HEADER + self.size(part);
            self.memory.copy_within(from..from + size, end);
            end += size;
        }
        self.set_size(Part::File, end - start);
    }

    // Keeps the four records.
    pub(crate) fn keep(&mut self) {
        self.memory.copy_within(..4 * ROOM, KEPT);
    }

    // The four records are again those that were kept.
    pub(crate) fn restore(&mut self) {
        self.memory.copy_within(KEPT..KEPT + 4 * ROOM, 0);
    }
}
