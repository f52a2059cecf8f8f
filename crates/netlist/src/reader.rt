// The reader of a text: line by line, until one is faulty or all have been read.
ghost use Rattle.std.specs.Prelude.{◌≡◌, ◌≤◌, suc, length};
ghost use Rattle.console.specs.Words.{belongs, leading, first};
ghost use Rattle.console.specs.declared.words.Run.TheVariants.{Line};
ghost use Rattle.netlist.specs.Answer.{number_of, line_of, refusal_of, at_end, Answers};

use super::draft::{Draft, Fault};
use super::{draft, line};
use image::Parts;
use units::number::Number;

// Why there are no parts: they break a rule, whose number this is; a line is outside the grammar; a line's
// value is outside its limits. Lines count from 1.
#[derive(Clone, Copy)]
pub enum Refusal {
    Rules(Number),
    Grammar(usize),
    Value(usize),
}

// The longest text that is read, in bytes.
const LONGEST: usize = 65535;

const GRAMMAR: u64 = 14;

const VALUE: u64 = 15;

impl Refusal {
    // The fault of a line.
    fn of(fault: Fault, line: usize) -> Refusal
        ensures { result ≡ refusal_of fault line }
    {
        match fault {
            Fault::Grammar => Refusal::Grammar(line),
            Fault::Value => Refusal::Value(line),
        }
    }

    // Its number.
    pub fn number(self) -> u64
        ensures { result ≡ number_of self }
    {
        match self {
            Refusal::Rules(n) => u64::from(n),
            Refusal::Grammar(_) => GRAMMAR,
            Refusal::Value(_) => VALUE,
        }
    }

    // The line that it names; 0 for none.
    pub fn line(self) -> usize
        ensures { result ≡ line_of self }
    {
        match self {
            Refusal::Rules(_) => 0,
            Refusal::Grammar(line) => line,
            Refusal::Value(line) => line,
        }
    }
}

// The answer after the last line, n being the one after it.
fn at_end(n: usize, draft: Draft) -> Result<Parts, Refusal>
    ensures { result ≡ at_end n draft }
{
    if !draft::complete(draft) {
        return Err(Refusal::Grammar(n));
    }
    match image::judge(draft.parts) {
        Number::Done => Ok(draft.parts),
        number => Err(Refusal::Rules(number)),
    }
}

// The line in a piece, which may have a line feed as its last byte and has no other. It was looked for when the
// text was cut, and is not looked for again.
fn line_in<'a>(piece: &'a [u8]) -> &'a [u8]
    requires { length piece.now ≤ suc (leading (belongs Line) piece.now) }
    ensures { result.now ≡ first Line piece.now }
{
    match piece.strip_suffix(b"\n") {
        Some(line) => line,
        None => piece,
    }
}

// Reads any bytes whatever.
pub fn read(text: &[u8]) -> Result<Parts, Refusal>
    ensures { Answers text.now result }
{
    if LONGEST < text.len() {
        return Err(Refusal::Grammar(0));
    }
    let mut draft = draft::blank();
    let mut n: usize = 1;
    // each line with its line feed: with `split` an empty line would follow the last line feed
    for piece in text.split_inclusive(|b| *b == b'\n') {
        let line = line::read(line_in(piece));
        match draft::fault_in(draft, line) {
            Some(fault) => return Err(Refusal::of(fault, n)),
            None => draft = draft::with_line(draft, line),
        }
        n += 1;
    }
    at_end(n, draft)
}
