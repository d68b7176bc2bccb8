// The text that a run prints, written piece after piece into a lent slice. The pieces do not go through write!, since no clause of
// it says that it succeeds where there is room.
ghost use Rattle.std.specs.Prelude.{◌≡◌, [], ◌∷◌, ◌++◌, ◌+◌, ◌*◌, ◌<◌, ◌≤◌, length};
ghost use Rattle.records_model.specs.Fixed.{text_room};
ghost use Rattle.records_model.specs.Text.{decimal, space, numbered, done_line, head_line, show_text, row_text};
ghost use Rattle.records_model.specs.Run.{stop_text};
ghost use Rattle.records_model.specs.Machine.{reply_text};
ghost use Rattle.records.specs.Written.{HasRoom, Writes, WritesIn, cell_of};
ghost use Rattle.records.specs.Room.{number_room, line_room, cell_room, row_room, rows_room, Printable};

use crate::lent::LentBuffers;
use plate::Size;
use records_model::effect::Reply;
use records_model::record::Stop;

// Text on its way into a lent slice, with how many bytes of it stand at the slice's start.
#[derive(Drop)]
pub(crate) struct Writer<'a> {
    out: &'a mut [u8],
    pub(crate) at: usize,
}

impl<'a> Writer<'a> {
    pub(crate) fn new(out: &'a mut [u8]) -> Self
        ensures same_slice { result.out.ghost_name ≡ out.entry.ghost_name }
        ensures slice { result.out.now ≡ out.old }
        ensures none { result.at ≡ 0 }
    {
        Writer { out, at: 0 }
    }

    fn byte(&mut self, byte: u8)
        requires { HasRoom 1 self.old }
        ensures { Writes self.old (byte ∷ []) self.new }
    {
        self.out[self.at] = byte;
        self.at += 1;
    }

    fn word(&mut self, word: &[u8])
        requires { HasRoom (length word.now) self.old }
        ensures { Writes self.old word.now self.new }
    {
        let end = self.at + word.len();
        self.out[self.at..end].copy_from_slice(word);
        self.at = end;
    }

    // A number in decimal, its digits right at their places. In a picture most numbers have one digit, which needs no count.
    fn number(&mut self, n: u64)
        requires { HasRoom (length (decimal n)) self.old }
        ensures { Writes self.old (decimal n) self.new }
    {
        if n < 10 {
            return self.byte(b'0' + n as u8);
        }
        let end = self.at + n.ilog10() as usize + 1;
        itoa::write_digits(n, self.out, end);
        self.at = end;
    }

    // A space and a number.
    fn spaced(&mut self, n: u64)
        requires { HasRoom number_room self.old }
        ensures { WritesIn number_room self.old (space ∷ decimal n) self.new }
    {
        self.byte(b' ');
        self.number(n);
    }

    // A word, and a number after it.
    fn labelled(&mut self, word: &[u8], n: u64)
        requires { HasRoom (length word.now + number_room) self.old }
        ensures { WritesIn (length word.now + number_room) self.old (word.now ++ (space ∷ decimal n)) self.new }
    {
        self.word(word);
        self.spaced(n);
    }

    // The line of a stop or a refusal: a word, a number, and the record that it came at.
    fn line(&mut self, word: &[u8], n: u64, k: u64)
        requires { HasRoom (length word.now + line_room) self.old }
        ensures { Writes self.old (numbered word.now n k) self.new }
    {
        self.labelled(word, n);
        self.labelled(b" at", k);
        self.byte(b'\n');
    }

    // The line of a stop.
    pub(crate) fn stopped(&mut self, why: Stop, k: u64)
        requires { HasRoom text_room self.old }
        ensures { Writes self.old (stop_text k why) self.new }
    {
        self.line(b"stopped", why as u64, k);
    }

    // The last line of a whole input.
    pub(crate) fn done(&mut self, k: u64)
        requires { HasRoom line_room self.old }
        ensures { Writes self.old (done_line k) self.new }
    {
        self.labelled(b"done", k);
        self.byte(b'\n');
    }

    // The first line of a show.
    fn head(&mut self, size: Size)
        requires { HasRoom line_room self.old }
        ensures { WritesIn line_room self.old (head_line size.width size.height) self.new }
    {
        self.labelled(b"plate", size.width as u64);
        self.spaced(size.height as u64);
        self.byte(b'\n');
    }

    fn cell(&mut self, value: u16, matte: u8)
        requires { HasRoom cell_room self.old }
        ensures { WritesIn cell_room self.old (cell_of value matte) self.new }
    {
        self.number(u64::from(value));
        self.byte(b'/');
        self.number(u64::from(matte));
    }

    // A row of cells, a space before each but the first.
    fn row(&mut self, values: &[u16], mattes: &[u8])
        requires room { HasRoom (row_room (length values.now)) self.old }
        requires alike { length mattes.now ≡ length values.now }
        ensures { WritesIn (row_room (length values.now)) self.old
            (row_text values.now mattes.now 0 (length values.now)) self.new }
    {
        for (place, (value, matte)) in values.iter().zip(mattes).enumerate() {
            if place > 0 {
                self.byte(b' ');
            }
            self.cell(*value, *matte);
        }
    }

    // A show: its first line, and a line for each row.
    fn show(&mut self, size: Size, values: &[u16], mattes: &[u8])
        requires some { 0 < size.width }
        requires room { HasRoom (line_room + rows_room size.width size.height) self.old }
        requires values_are { size.width * size.height ≤ length values.now }
        requires mattes_are { size.width * size.height ≤ length mattes.now }
        ensures { Writes self.old (show_text size.width size.height values.now mattes.now) self.new }
    {
        self.head(size);
        let places = size.width * size.height;
        let values = values[..places].chunks_exact(size.width);
        let mattes = mattes[..places].chunks_exact(size.width);
        for (values, mattes) in values.zip(mattes) {
            self.row(values, mattes);
            self.byte(b'\n');
        }
    }

    // A reply to record K.
    #[tactic(auto, using(crate::proofs::Laws::Writing::Slices::writes_nothing), unfolding(records_model::specs::Machine::reply_text))]
    pub(crate) fn reply(&mut self, reply: Reply, k: u64, buffers: &LentBuffers)
        requires room { HasRoom text_room self.old }
        requires printable { Printable reply }
        ensures { Writes self.old (reply_text k reply buffers.now.values.now buffers.now.mattes.now) self.new }
    {
        match reply {
            Reply::Nothing => {}
            Reply::StoppedBy(why) => self.stopped(why, k),
            Reply::RefusedBy(number) => self.line(b"refused", number, k),
            Reply::Pictures(size) => self.show(size, buffers.values, buffers.mattes),
        }
    }
}
