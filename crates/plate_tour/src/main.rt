// A plate of 3 × 1 pixels: opened, two pixels put, one taken back, then filled. Each show prints value and matte of each cell,
// and after the two puts light and matte of the whole plate are printed. Last a pixel is put and taken back with the pictures
// kept under the brush, and these are printed.
#![tactic(auto)]

use plate::{Lens, Lent, State};
use std::io;

// The cells of the planes, of the scratch, and the pixels.
const PLANES: usize = 1386;

const SCRATCH: usize = 297;

const PLACES: usize = 3;

// The plate, with all that its calls are lent.
#[derive(Drop)]
struct Plate {
    state: State,
    planes: [u64; PLANES],
    pixels: [u64; PLACES],
    log: [u64; 2],
    scratch: [u64; SCRATCH],
    values: [u16; PLACES],
    mattes: [u8; PLACES],
    sums: [u64; 2 * PLACES],
}

impl Plate {
    fn opened() -> Plate {
        let mut plate = Plate {
            state: State::default(),
            planes: [0; PLANES],
            pixels: [0; PLACES],
            log: [0; 2],
            scratch: [0; SCRATCH],
            values: [0; PLACES],
            mattes: [0; PLACES],
            sums: [0; 2 * PLACES],
        };
        plate.state = plate.lent().open(3, 1, 1).state;
        plate
    }

    // What a put, an undo and a fill are lent.
    fn lent(&mut self) -> Lent<'_> {
        let planes = &mut self.planes;
        let pixels = &mut self.pixels;
        let log = &mut self.log;
        Lent {
            planes,
            pixels,
            log,
        }
    }

    // An opaque box.
    fn put(&mut self, x: usize, value: u16, radius: u8) {
        let state = self.state;
        let answer = self.lent().put(state, x, 0, value, 255, 0, radius);
        self.state = answer.state;
    }

    fn undo(&mut self) {
        let state = self.state;
        let answer = self.lent().undo(state);
        self.state = answer.state;
    }

    // A layer in three depths, in diamonds.
    fn fill(&mut self) {
        let state = self.state;
        let lens = Lens {
            opening: 250,
            focal: 500,
            focus: 20000,
            pitch: 50,
        };
        let answer = self.lent().fill(
            state,
            lens,
            3,
            &[1000, 2000, 3000],
            &[255, 128, 255],
            &[20000, 40000, 0],
        );
        self.state = answer.state;
    }

    fn show(&mut self) {
        plate::show::show(
            self.state,
            &self.planes,
            &mut self.scratch,
            &mut self.values,
            &mut self.mattes,
        );
    }

    // A show that keeps its sums, which a put and an undo then mend with the pictures.
    fn show_kept(&mut self) {
        plate::kept::show_kept(
            self.state,
            &self.planes,
            &mut self.scratch,
            &mut self.values,
            &mut self.mattes,
            &mut self.sums,
        );
    }

    // An opaque box of radius 1.
    fn put_kept(&mut self) {
        let mut lent = Lent {
            planes: &mut self.planes,
            pixels: &mut self.pixels,
            log: &mut self.log,
        };
        let answer = lent.put_kept(
            self.state,
            0,
            0,
            40,
            255,
            0,
            1,
            &mut self.sums,
            &mut self.values,
            &mut self.mattes,
        );
        self.state = answer.state;
    }

    fn undo_kept(&mut self) {
        let mut lent = Lent {
            planes: &mut self.planes,
            pixels: &mut self.pixels,
            log: &mut self.log,
        };
        let answer = lent.undo_kept(
            self.state,
            &mut self.sums,
            &mut self.values,
            &mut self.mattes,
        );
        self.state = answer.state;
    }

    // Each cell goes out by one write, with the space or the end of the line that comes after it.
    fn print_pictures(&self, rt: &impl Print) -> io::Result<()> {
        for (x, (value, matte)) in self.values.iter().zip(&self.mattes).enumerate() {
            let end = if x + 1 < PLACES { " " } else { "\n" };
            print!(rt; "{value}/{matte}{end}")?;
        }
        Ok(())
    }

    fn print_total(&mut self, rt: &impl Print) -> io::Result<()> {
        let totals = plate::total::total(self.state, &self.planes, &mut self.scratch);
        let light = totals.light;
        let matte = totals.matte;
        println!(rt; "total {light}/{matte}")
    }
}

fn main(rt: HostRuntime) -> io::Result<()> {
    let mut plate = Plate::opened();
    plate.put(1, 100, 1);
    plate.put(0, 40, 0);
    plate.show();
    plate.print_pictures(&rt)?;
    plate.print_total(&rt)?;
    plate.undo();
    plate.show();
    plate.print_pictures(&rt)?;
    plate.fill();
    plate.show();
    plate.print_pictures(&rt)?;
    plate.show_kept();
    plate.put_kept();
    plate.print_pictures(&rt)?;
    plate.undo_kept();
    plate.print_pictures(&rt)
}
