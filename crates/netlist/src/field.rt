// Words and numbers on a line, by their places.
ghost use Rattle.std.specs.Prelude.{◌≡◌, suc};
ghost use Rattle.console.specs.Number.{worth_at};
ghost use Rattle.netlist.specs.Curve.{next, stands, ends};
ghost use Rattle.netlist.specs.Kept.{byte, word, size};

use console::words::Run;
use console::{number, words};

// The greatest numbers that fields of the image hold.
const MOST_BYTE: u64 = 255;

const MOST_WORD: u64 = 4294967295;

const MOST_SIZE: u64 = 2147483647;

// Where the next word begins, after one of a run.
pub fn next(run: Run, s: &[u8], at: usize) -> usize
    ensures { result ≡ next run s.now at }
{
    words::past(Run::Blanks, s, words::past(run, s, at))
}

// Whether a word of a run stands at a place, and a blank after it.
pub fn stands(run: Run, s: &[u8], at: usize) -> bool
    ensures { result ≡ stands run s.now at }
{
    let end = words::past(run, s, at);
    (at < end) & (end < words::past(Run::Blanks, s, end))
}

// Whether a number stands at a place, and nothing after it.
pub fn ends(s: &[u8], at: usize) -> bool
    ensures { result ≡ ends s.now at }
{
    let end = words::past(Run::Digits, s, at);
    (at < end) & (words::past(Run::Blanks, s, end) == s.len())
}

// The number at a place, as a field of one byte.
pub fn byte(s: &[u8], at: usize) -> u8
    ensures { result ≡ byte (worth_at s.now at) }
{
    number::worth_at(s, at).min(MOST_BYTE) as u8
}

// The number at a place, as a field of four.
pub fn word(s: &[u8], at: usize) -> u32
    ensures { result ≡ word (worth_at s.now at) }
{
    number::worth_at(s, at).min(MOST_WORD) as u32
}

// The size of a breakpoint: a field of four with a sign.
pub fn size(s: &[u8], at: usize) -> u64
    ensures { result ≡ size (worth_at s.now at) }
{
    number::worth_at(s, at).min(MOST_SIZE)
}

// A number of four bytes, as a field of one.
pub fn narrow(n: u32) -> u8
    ensures { result ≡ byte n }
{
    n.min(MOST_BYTE as u32) as u8
}

// A count with one more, held to one byte.
pub fn counted(n: u8) -> u8
    ensures { result ≡ byte (suc n) }
{
    n.saturating_add(1)
}
