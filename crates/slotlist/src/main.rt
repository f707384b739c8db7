// slotlist (document 01, "Program"; P: document 02, W-201): lines on standard input, calls of a store of two slots, answers on standard output.
// What a line says and how an answer is laid out is the crate lines'; what a line does is the crate desk's. No contract can say
// what is read or written: the contracts here say what a run of bytes does to chips and state (`feed`), and keep the areas
// within their bounds.
#![tactic(auto)]

mod say;

ghost use Rattle.std.specs.Prelude.{◌≡◌, ◌≤◌, length, take};
ghost use Rattle.lines.specs.Forms.{line_of};
ghost use Rattle.store.specs.World.{world};
ghost use Rattle.desk.specs.Obeyed.{obeyed, desk, typed, typed_all};

use desk::Reader;
use std::io::Read;

// The most bytes that one read brings.
const INPUT_BYTES: usize = 4096;

// The chips of the store, its state, and the line so far.
#[derive(Drop)]
struct Console {
    nand: [u8; desk::NAND_BYTES],
    nor: [u8; flash::NOR_BYTES],
    reader: Reader,
    ghost within: { (reader.len ≤ 48) × (length reader.line ≡ 48) },
}

impl Console {
    // Does what one line says, and prints the answer.
    fn obey(&mut self, rt: &impl Print, line: &[u8])
        ensures { world self.new.nand self.new.nor self.new.reader.state
            ≡ obeyed (world self.old.nand self.old.nor self.old.reader.state) (line_of line.now) }
    {
        let l = lines::parse(line);
        let number = match desk::carried_out(&mut self.nand, &mut self.nor, self.reader.state, l) {
            Ok(next) => {
                self.reader.state = next;
                0
            }
            Err(ground) => ground.number(),
        };
        say::answer(rt, &self.nand, &self.nor, self.reader.state, number, l);
    }

    // Obeys the line so far, and starts the next.
    fn obey_line(&mut self, rt: &impl Print)
        ensures { (self.new.reader.len ≡ 0) × (world self.new.nand self.new.nor self.new.reader.state
            ≡ obeyed (world self.old.nand self.old.nor self.old.reader.state) (line_of (take self.old.reader.len self.old.reader.line))) }
    {
        let Reader { line, len, .. } = self.reader;
        self.obey(rt, &line[..len]);
        self.reader.len = 0;
    }

    // One byte of the input.
    fn accept(&mut self, rt: &impl Print, b: u8)
        ensures { desk self.new.nand self.new.nor self.new.reader
            ≡ typed (desk self.old.nand self.old.nor self.old.reader) b }
    {
        if lines::ends_line(b) {
            self.obey_line(rt);
        } else {
            self.reader = desk::pushed(self.reader, b);
        }
    }

    // Some bytes of the input, in order.
    fn feed(&mut self, rt: &impl Print, bytes: &[u8])
        ensures { desk self.new.nand self.new.nor self.new.reader
            ≡ typed_all (desk self.old.nand self.old.nor self.old.reader) bytes.now }
    {
        for b in bytes {
            self.accept(rt, *b);
        }
    }

    // Reads once; whether it brought something. A read that fails is the end of the input.
    fn read_some(&mut self, rt: &impl Print, input: &mut impl Read) -> bool {
        let mut buf = [0u8; INPUT_BYTES];
        let n = input.read(&mut buf).unwrap_or(0);
        self.feed(rt, &buf[..n]);
        n != 0
    }

    // Reads to the end of the input. A proved loop has to end, so this one counts its turns, to a number that no run comes to.
    fn read_all(&mut self, rt: &impl Print, input: &mut impl Read) {
        for _ in 0..u64::MAX {
            if !self.read_some(rt, input) {
                break;
            }
        }
    }

    // Obeys every line of the input. A last line without its line feed counts.
    fn run(&mut self, rt: &(impl Print + Input)) {
        self.read_all(rt, &mut rt.reader());
        if 0 < self.reader.len {
            self.obey_line(rt);
        }
    }
}

fn main(rt: HostRuntime) {
    let mut nand = [0u8; desk::NAND_BYTES];
    let mut nor = [0u8; flash::NOR_BYTES];
    let state = desk::formatted(&mut nand, &mut nor);
    let mut console = Console {
        nand,
        nor,
        reader: desk::begun(state),
    };
    console.run(&rt);
}
