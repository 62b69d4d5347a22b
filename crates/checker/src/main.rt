// Reads a yard file on standard input and writes the verdict on it, one line.
#![tactic(auto)]

ghost use Rattle.std.specs.Prelude.{◌≤◌, length, IfOk};

use report::{Accepted, Numbers, Refusal};
use std::io;
use std::io::Read;

// One byte more than the longest file, so that the check sees one that is too long.
const READ: usize = 43_537;

fn write_verdict(rt: &impl Print, verdict: Result<Accepted, Refusal>) -> io::Result<()> {
    match verdict {
        Ok(counts) => {
            let Accepted {
                vertices,
                transitions,
                loops,
            } = counts;
            println!(rt; "accepted {vertices} {transitions} {loops}")
        }
        Err(refusal) => {
            let Numbers { n, p, q, r } = refusal.into();
            println!(rt; "refused {n} {p} {q} {r}")
        }
    }
}

// Reads until the buffer is full or the input ends.
fn read_full(input: &mut impl Read, buffer: &mut [u8]) -> io::Result<usize>
    ensures { IfOk result (λ n. n ≤ length buffer.new) }
{
    let mut done = 0;
    while done < buffer.len() {
        let n = input.read(&mut buffer[done..])?;
        if n == 0 {
            break;
        }
        done += n;
    }
    Ok(done)
}

fn main(rt: HostRuntime) -> io::Result<()> {
    let mut file = [0; READ];
    match read_full(&mut rt.reader(), &mut file) {
        Ok(length) => write_verdict(&rt, verdict::check(&file[..length])),
        Err(_) => eprintln!(rt; "checker: standard input cannot be read"),
    }
}
