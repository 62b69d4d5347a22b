// What a line lends to the calls that change bytes: the standing bytes, or a follower's state.
use crate::words::write_hex;

// At most so many bytes are lent.
const LENT: usize = 4096;

#[derive(Drop)]
pub(crate) struct Lent {
    bytes: [u8; LENT],
    // of the line; those past the room are not lent
    count: usize,
}

impl Lent {
    pub(crate) fn nothing() -> Self {
        Lent {
            bytes: [0; LENT],
            count: 0,
        }
    }

    // Takes the bytes that a text writes.
    pub(crate) fn write(&mut self, text: &[u8]) {
        self.count = write_hex(&mut self.bytes, text);
    }

    pub(crate) fn as_slice(&self) -> &[u8] {
        &self.bytes[..self.count.min(LENT)]
    }

    pub(crate) fn as_mut_slice(&mut self) -> &mut [u8] {
        &mut self.bytes[..self.count.min(LENT)]
    }
}
