// Cases of the record program, read as text: a line that starts with # names a case, and two hexadecimal digits side by side
// are a byte of its input; whatever else stands below the name is passed over. It prints each name, and then the text of the
// case's run.
#![tactic(auto)]

ghost use Rattle.std.specs.Prelude.{◌≤◌, length, IfOk};

use records::{Buffers, Machine, Text, machine};
use records_model::fixed::BUFFER;
use std::io;
use std::io::Read;

// The bytes of the cases, at most.
const INPUT: usize = 65536;

// The value of a hexadecimal digit.
fn digit(b: u8) -> Option<u8> {
    match b {
        b'0'..=b'9' => Some(b - b'0'),
        b'A'..=b'F' => Some(b - b'A' + 10),
        _ => None,
    }
}

// A case on its way: the machine with its buffers, what a call is lent for its text, and the first digit of a byte, where one has
// been read.
#[derive(Drop)]
struct Run {
    machine: Machine,
    buffers: Buffers,
    text: Text,
    half: Option<u8>,
}

impl Run {
    fn start() -> Self {
        Run {
            machine: machine::start(),
            buffers: machine::zeroed(),
            text: [0; BUFFER],
            half: None,
        }
    }

    // A byte of a case's input, and the text that it brings.
    fn feed(&mut self, rt: &impl Print, byte: u8) -> io::Result<()> {
        let next = records::advance::advance_in(
            self.machine,
            &[byte],
            &mut self.buffers,
            &mut self.text,
        );
        self.machine = next.machine;
        rt.write_all(&self.text[..next.written])
    }

    // One character of a case.
    fn step(&mut self, rt: &impl Print, character: u8) -> io::Result<()> {
        match (self.half.take(), digit(character)) {
            (Some(high), Some(low)) => self.feed(rt, (high << 4) | low)?,
            (None, half) => self.half = half,
            (Some(_), None) => {}
        }
        Ok(())
    }

    // The end of a case's input.
    fn end(&mut self, rt: &impl Print) -> io::Result<()> {
        let n = machine::finish(self.machine, &mut self.text);
        rt.write_all(&self.text[..n])
    }
}

// A case from its first character to the end of its input.
fn run_case(rt: &impl Print, case: &[u8]) -> io::Result<()> {
    let mut run = Run::start();
    for character in case {
        run.step(rt, *character)?;
    }
    run.end(rt)
}

// One case: its name, up to the end of the line, and its run.
fn named(rt: &impl Print, case: &[u8]) -> io::Result<()> {
    let end = match case.iter().position(|b| *b == b'\n') {
        Some(at) => at + 1,
        None => case.len(),
    };
    rt.write_all(b"#")?;
    rt.write_all(&case[..end])?;
    run_case(rt, &case[end..])
}

// Each case goes from a # to the next one.
fn cases(rt: &impl Print, input: &[u8]) -> io::Result<()> {
    for case in input.split_inclusive(|b| *b == b'#').skip(1) {
        named(rt, case)?;
    }
    Ok(())
}

// Reads until the buffer is full or the input ends, where read_exact would fail, and returns how many bytes it put at the start of
// the buffer.
fn read_full(stdin: &mut impl Read, input: &mut [u8]) -> io::Result<usize>
    ensures { IfOk result (λ n. n ≤ length input.new) }
{
    let mut done = 0;
    while done < input.len() {
        let n = stdin.read(&mut input[done..])?;
        if n == 0 {
            break;
        }
        done += n;
    }
    Ok(done)
}

// The text is at most 65,536 bytes long.
fn main(rt: HostRuntime) -> io::Result<()> {
    let mut input = [0u8; INPUT];
    let n = read_full(&mut rt.stdin(), &mut input)?;
    cases(&rt, &input[..n])
}
