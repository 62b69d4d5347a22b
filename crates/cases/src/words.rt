// The words of a line, which one space parts, and the numbers and the bytes that they write.
ghost use Rattle.std.specs.Prelude.{◌^◌, ◌<◌, IfSome};

// What stands before the first such byte, and what stands behind it; all and nothing where there is none.
pub(crate) fn split_once(text: &[u8], byte: u8) -> (&[u8], &[u8]) {
    match text.iter().position(|other| *other == byte) {
        Some(at) => (&text[..at], &text[at + 1..]),
        None => text.split_at(text.len()),
    }
}

// A line's next word, and the words after it.
pub(crate) fn next_word(line: &[u8]) -> (&[u8], &[u8]) {
    split_once(line, b' ')
}

// The decimal number at the beginning of a text, of six digits at most besides zeros in front; 0 where there is none.
pub(crate) fn number(text: &[u8]) -> u32
    ensures { result < 1000000 }
{
    let mut value = 0;
    for byte in text {
        if !byte.is_ascii_digit() || value > 99_999 {
            break;
        }
        value = 10 * value + u32::from(*byte - b'0');
    }
    value
}

// The value of a hexadecimal digit, of those in capitals alone.
fn hex_digit(byte: u8) -> Option<u8>
    ensures { IfSome result (λ digit. digit < 16) }
{
    match byte {
        b'0'..=b'9' => Some(byte - b'0'),
        b'A'..=b'F' => Some(byte - b'A' + 10),
        _ => None,
    }
}

// Writes what a text says in hexadecimal, two digits into each byte, and answers how many bytes they fill. Those that
// there is no room for are dropped. A last digit alone shifts into the byte behind the others, and all else in the text is
// passed over.
pub(crate) fn write_hex(bytes: &mut [u8], text: &[u8]) -> usize
    ensures { result < 2 ^ 63 }
{
    let mut digits = 0;
    for byte in text {
        if let Some(digit) = hex_digit(*byte) {
            if let Some(place) = bytes.get_mut(digits / 2) {
                *place = (*place << 4) | digit;
            }
            digits += 1;
        }
    }
    digits / 2
}
