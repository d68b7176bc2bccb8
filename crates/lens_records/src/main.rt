// The record program: records from standard input, their text to standard output. That a read or a write has failed is said on
// standard error, and the text then has no last line; the exit status is 0 all the same.
#![tactic(auto)]

ghost use Rattle.std.specs.Prelude.{◌≡◌, ℕ, IfOk, MatchResult};
ghost use Rattle.records_model.specs.Machine.{fresh, zeroed};
ghost use Rattle.lens_records.specs.Feeding.{FedTo, FedFront};

use records::advance::advance_in;
use records::{Buffers, Machine, Text, machine};
use records_model::fixed::BUFFER;
use std::io::Read;
use thiserror::Error;

// The bytes of a read, at most.
const READ: usize = 65536;

// What has failed.
#[derive(Clone, Copy, Debug, PartialEq, Eq, Error)]
enum Failure {
    #[error("cannot read standard input, so the run is cut short")]
    Read,
    #[error("cannot write standard output, so the text is cut short")]
    Write,
}

// A run on its way: the machine, its buffers, and what a call is lent for its text.
#[derive(Drop)]
struct Run {
    machine: Machine,
    buffers: Buffers,
    text: Text,
}

fn write(rt: &impl Print, text: &[u8]) -> Result<(), Failure> {
    rt.write_all(text).map_err(|_| Failure::Write)
}

impl Run {
    // It begins as the theorem from bytes to text does, with zeroed buffers of the paper's lengths.
    fn start() -> Self
        ensures machine { result.machine ≡ fresh }
        ensures buffers { result.buffers ≡ zeroed }
    {
        Run {
            machine: machine::start(),
            buffers: machine::zeroed(),
            text: [0; BUFFER],
        }
    }

    // A call of advance, and its text written: how many bytes of the part were taken. Where the write fails, some were.
    fn advance_and_write(&mut self, rt: &impl Print, part: &[u8]) -> Result<usize, Failure>
        ensures { MatchResult result
            (λ n. FedFront self.old.machine self.old.buffers part.now n self.new.machine self.new.buffers)
            (λ _. (n : ℕ) × FedFront self.old.machine self.old.buffers part.now n self.new.machine self.new.buffers) }
    {
        let next = advance_in(self.machine, part, &mut self.buffers, &mut self.text);
        self.machine = next.machine;
        write(rt, &self.text[..next.written])?;
        Ok(next.consumed)
    }

    // The bytes of one read, handed on from where the call before stopped until they are consumed.
    fn part(&mut self, rt: &impl Print, input: &[u8]) -> Result<(), Failure>
        ensures { IfOk result
            (λ _. FedTo self.old.machine self.old.buffers input.now self.new.machine self.new.buffers) }
    {
        let mut rest = input;
        while !rest.is_empty() {
            let consumed = self.advance_and_write(rt, rest)?;
            rest = &rest[consumed..];
        }
        Ok(())
    }

    // One read, and the text of what it brought. The run goes on unless the input has ended or it has stopped.
    fn read_once(
        &mut self,
        rt: &impl Print,
        stdin: &mut impl Read,
        input: &mut [u8],
    ) -> Result<bool, Failure> {
        let n = stdin.read(input).map_err(|_| Failure::Read)?;
        self.part(rt, &input[..n])?;
        Ok(n > 0 && !machine::ended(self.machine))
    }

    // Reads while the run goes on. The range counts nothing: a loop that ends with its input has one in the place of an endless loop.
    fn read_all(
        &mut self,
        rt: &impl Print,
        stdin: &mut impl Read,
        input: &mut [u8],
    ) -> Result<(), Failure>
        requires machine { self.old.machine ≡ fresh }
        requires buffers { self.old.buffers ≡ zeroed }
    {
        for _ in 0..u64::MAX {
            if !self.read_once(rt, stdin, input)? {
                break;
            }
        }
        Ok(())
    }

    // The end of the input.
    fn end(&mut self, rt: &impl Print) -> Result<(), Failure> {
        let n = machine::finish(self.machine, &mut self.text);
        write(rt, &self.text[..n])
    }
}

// A whole run, from the first read to the last line.
fn whole_run(rt: &impl Print, stdin: &mut impl Read) -> Result<(), Failure> {
    let mut run = Run::start();
    let mut input = [0; READ];
    run.read_all(rt, stdin, &mut input)?;
    run.end(rt)
}

fn main(rt: HostRuntime) {
    if let Err(failure) = whole_run(&rt, &mut rt.stdin()) {
        let _ = eprintln!(rt; "lens_records: {failure}");
    }
}
