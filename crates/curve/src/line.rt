// A line of a measured list.
ghost use Rattle.std.specs.Prelude.{◌≡◌};
ghost use Rattle.curve.specs.Text.{next_word, pair_of, line_of};

use console::number::NumberError;
use console::words::Run;
use console::{number, words};

// What a line says: nothing, the two numbers of a pair, or something else.
#[derive(Clone, Copy)]
pub enum Line {
    Empty,
    Pair(i64, i64),
    Other,
}

// From the word after the first one on, in a text that begins with a word.
fn next_word<'a>(text: &'a [u8]) -> &'a [u8]
    ensures { result.now ≡ next_word text.now }
{
    let after = words::rest(Run::Word, text);
    words::rest(Run::Blanks, after)
}

// Two words as a pair. A number of 2^63 or more in size is one that no rule lets pass.
fn pair(voltage: Result<i64, NumberError>, current: Result<i64, NumberError>) -> Line
    ensures { result ≡ pair_of voltage current }
{
    match (voltage, current) {
        (Ok(voltage), Ok(current)) => Line::Pair(voltage, current),
        _ => Line::Other,
    }
}

// What a line says.
pub fn read(line: &[u8]) -> Line
    ensures { result ≡ line_of line.now }
{
    let said = words::first(Run::Said, line);
    let from_first = words::rest(Run::Blanks, said);
    if from_first.is_empty() {
        return Line::Empty;
    }
    let from_second = next_word(from_first);
    let after = next_word(from_second);
    if !after.is_empty() {
        return Line::Other;
    }
    let voltage = number::number(words::first(Run::Word, from_first));
    let current = number::number(words::first(Run::Word, from_second));
    pair(voltage, current)
}
