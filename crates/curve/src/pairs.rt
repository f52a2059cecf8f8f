// The pairs of a text, and the curve that they make.
ghost use Rattle.std.specs.Prelude.{◌≡◌, [], ◌≤◌, length};
ghost use Rattle.console.specs.Words.{lines};
ghost use Rattle.curve.specs.Text.{told, line_of, told_by, answer, longest_text, curve_of};
ghost use Rattle.curve.specs.Kept.{Reads, told_with};
ghost use Rattle.curve.specs.declared.line.Line.TheVariants.{Pair};

use super::kept::Kept;
use super::line;
use super::line::Line;
use console::words;
use console::words::Run;
use image::Curve;
use measured::Refusal;

// The longest text that is read, in bytes.
const LONGEST: usize = 65535;

// No pairs, before the first line.
fn none() -> Kept
    ensures { result.count ≡ 0 }
{
    Kept {
        count: 0,
        voltages: [0; 17],
        currents: [0; 17],
    }
}

// The pairs with one more, if a curve may be made from so many.
fn one_more(kept: Kept, voltage: i64, current: i64) -> Option<Kept>
    ensures { Reads kept (Pair voltage current) result }
{
    let n = kept.count;
    if measured::MOST <= n {
        return None;
    }
    let mut voltages = kept.voltages;
    let mut currents = kept.currents;
    voltages[n] = voltage;
    currents[n] = current;
    Some(Kept {
        count: n + 1,
        voltages,
        currents,
    })
}

// The pairs with those of one more line, which is nothing else.
fn read_line(kept: Kept, line: &[u8]) -> Option<Kept>
    ensures { Reads kept (line_of line.now) result }
{
    match line::read(line) {
        Line::Empty => Some(kept),
        Line::Pair(voltage, current) => one_more(kept, voltage, current),
        Line::Other => None,
    }
}

// The pairs of all lines.
fn read(text: &[u8]) -> Option<Kept>
    requires { length text.now ≤ longest_text }
    ensures { answer (told_with result (told [] [])) ≡ answer (told_by (lines text.now)) }
{
    let mut kept = none();
    let mut at: usize = 0;
    while at < text.len() {
        let line = words::first(Run::Line, &text[at..]);
        kept = read_line(kept, line)?;
        at += line.len() + 1;
    }
    Some(kept)
}

// The curve of a measured list, from its text.
pub fn curve(text: &[u8]) -> Result<Curve, Refusal>
    ensures { result ≡ curve_of text.now }
{
    if LONGEST < text.len() {
        return Err(Refusal::Pairs);
    }
    let Some(kept) = read(text) else {
        return Err(Refusal::Pairs);
    };
    measured::curve(&kept.voltages[..kept.count], &kept.currents[..kept.count])
}
