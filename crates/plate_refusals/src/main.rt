// Each example of the paper's table of refusals that a plate's calls can give: the numbers 1 to 12 and 17, one on a line.
#![tactic(auto)]

use plate::{Answer, Lens, Lent, State};
use std::io;

// The cells of the planes of a plate of 3 × 1, with reach 1 and with reach 3.
const NEAR: usize = 1386;

const FAR: usize = 2730;

// One cell too few.
const SHORT: usize = NEAR - 1;

// A plate of 3 × 1 with planes of N cells and a log of two entries.
#[derive(Drop)]
struct Plate<const N: usize> {
    state: State,
    planes: [u64; N],
    pixels: [u64; 3],
    log: [u64; 2],
}

impl<const N: usize> Plate<N> {
    fn new() -> Plate<N> {
        Plate {
            state: State::default(),
            planes: [0; N],
            pixels: [0; 3],
            log: [0; 2],
        }
    }

    fn opened(reach: usize) -> Plate<N> {
        let mut plate = Plate::new();
        plate.state = plate.open(3, reach).state;
        plate
    }

    // What a call is lent.
    fn lent(&mut self) -> Lent<'_> {
        let planes = &mut self.planes;
        let pixels = &mut self.pixels;
        let log = &mut self.log;
        Lent {
            planes,
            pixels,
            log,
        }
    }

    fn open(&mut self, width: usize, reach: usize) -> Answer {
        self.lent().open(width, 1, reach)
    }

    fn put(&mut self, x: usize, value: u16, shape: u8, radius: u8) -> Answer {
        let state = self.state;
        self.lent().put(state, x, 0, value, 255, shape, radius)
    }

    // A put of a lawful pixel, where the log has no entry and its count is given.
    fn put_without_log(&mut self, count: usize) -> Answer {
        let state = State {
            size: self.state.size,
            count,
        };
        let mut lent = Lent {
            planes: &mut self.planes,
            pixels: &mut self.pixels,
            log: &mut [],
        };
        lent.put(state, 1, 0, 100, 255, 0, 1)
    }

    fn undo(&mut self) -> Answer {
        let state = self.state;
        self.lent().undo(state)
    }

    fn fill(&mut self, focus: u32, depth: u32) -> Answer {
        let state = self.state;
        let lens = Lens {
            opening: 250,
            focal: 500,
            focus,
            pitch: 50,
        };
        self.lent().fill(
            state,
            lens,
            0,
            &[1000, 2000, 3000],
            &[255, 255, 255],
            &[20000, depth, 0],
        )
    }
}

fn print_number(rt: &impl Print, a: Answer) -> io::Result<()> {
    let number = plate::state::number(a.outcome);
    println!(rt; "{number}")
}

// Each case is a function of its own, out of line: so the plates of two cases do not lie on the stack together.
#[inline(never)]
fn sizes_refused(rt: &impl Print) -> io::Result<()> {
    print_number(rt, Plate::<NEAR>::new().open(0, 1))
}

#[inline(never)]
fn lengths_refused(rt: &impl Print) -> io::Result<()> {
    print_number(rt, Plate::<SHORT>::new().open(3, 1))
}

// A put of a pixel that is lawful but for what is given, beside a stored word.
#[inline(never)]
fn put_refused(rt: &impl Print, x: usize, value: u16, shape: u8, word: u64) -> io::Result<()> {
    let mut plate = Plate::<NEAR>::opened(1);
    plate.pixels[1] = word;
    print_number(rt, plate.put(x, value, shape, 1))
}

#[inline(never)]
fn radius_refused(rt: &impl Print) -> io::Result<()> {
    print_number(rt, Plate::<FAR>::opened(3).put(1, 100, 1, 2))
}

#[inline(never)]
fn log_refused(rt: &impl Print, count: usize) -> io::Result<()> {
    print_number(rt, Plate::<NEAR>::opened(1).put_without_log(count))
}

#[inline(never)]
fn undo_refused(rt: &impl Print) -> io::Result<()> {
    print_number(rt, Plate::<NEAR>::opened(1).undo())
}

#[inline(never)]
fn fill_refused(rt: &impl Print, focus: u32, depth: u32) -> io::Result<()> {
    print_number(rt, Plate::<NEAR>::opened(1).fill(focus, depth))
}

fn main(rt: HostRuntime) -> io::Result<()> {
    // 1: W = 0
    sizes_refused(&rt)?;
    // 2: planes of 14 × P − 1
    lengths_refused(&rt)?;
    // 3: count 1, log 0
    log_refused(&rt, 1)?;
    // 4, 5 and 6: x = W, a value of 4,096, shape 6
    put_refused(&rt, 3, 100, 0, 0)?;
    put_refused(&rt, 1, 4096, 0, 0)?;
    put_refused(&rt, 1, 100, 6, 0)?;
    // 7: tent, R = 3, r = 2
    radius_refused(&rt)?;
    // 8: log 0, a put lawful otherwise
    log_refused(&rt, 0)?;
    // 9: undo after open
    undo_refused(&rt)?;
    // 10: a word of 2^40
    put_refused(&rt, 1, 100, 0, 1099511627776)?;
    // 11: S = f. 12: a depth of 10,000,001. 17: a depth of f
    fill_refused(&rt, 500, 20000)?;
    fill_refused(&rt, 20000, 10000001)?;
    fill_refused(&rt, 20000, 500)
}
