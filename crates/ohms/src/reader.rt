// The readers of a value. They call each other: a sum is of parallels, a parallel of factors, and a
// factor may be a sum in brackets, so that less text remains with each bracket.
ghost use Rattle.std.specs.Prelude.{◌≡◌, ◌<◌, length};
ghost use Rattle.ohms.specs.Grammar.{stands, width, after, Chain, Factor, Sum, most_open};
ghost use Rattle.ohms.specs.Found.{Operand, Right};
ghost use Rattle.ohms.specs.declared.stages.Sign.TheVariants.{Bars};

use super::stages;
use super::stages::Sign;
use console::words::Run;
use console::{number, words};

// A value that stands at a place: the place after it and the blanks that follow it, and what it comes
// to, which is nothing outside the limits.
#[derive(Clone, Copy)]
pub struct Found {
    pub end: usize,
    pub worth: Option<u32>,
}

// As many brackets may be open at once.
const MOST_OPEN: usize = 16;

// Whether two bars stand at a place.
fn bars(text: &[u8], at: usize) -> bool
    ensures { result ≡ stands Bars text.now at }
{
    words::byte_at(text, at) == b'|' && words::byte_at(text, at + 1) == b'|'
}

// Whether a sign stands at a place.
fn stands(sign: Sign, text: &[u8], at: usize) -> bool
    ensures { result ≡ stands sign text.now at }
{
    match sign {
        Sign::Plus => words::byte_at(text, at) == b'+',
        Sign::Bars => bars(text, at),
    }
}

// How many bytes a sign is.
fn width(sign: Sign) -> usize
    ensures { result ≡ width sign }
{
    match sign {
        Sign::Plus => 1,
        Sign::Bars => 2,
    }
}

// Where the value after a sign begins.
fn after(sign: Sign, text: &[u8], at: usize) -> usize
    requires { at < length text.now }
    ensures { result ≡ after sign text.now at }
{
    words::past(Run::Blanks, text, at + width(sign))
}

// A number, or a value in brackets if there is room for them.
#[cycle(factor_chain_operand)]
fn factor(text: &[u8], room: usize, at: usize) -> Option<Found>
    ensures { Right (Factor text.now room at) result }
{
    let end = words::past(Run::Digits, text, at);
    if at < end {
        return Some(Found {
            end: words::past(Run::Blanks, text, end),
            worth: stages::stage(number::worth(&text[at..end])),
        });
    }
    if room == 0 || words::byte_at(text, at) != b'(' {
        return None;
    }
    let opened = words::past(Run::Blanks, text, at + 1);
    let inside = chain(Sign::Plus, text, room - 1, opened)?;
    if words::byte_at(text, inside.end) != b')' {
        return None;
    }
    Some(Found {
        end: words::past(Run::Blanks, text, inside.end + 1),
        worth: inside.worth,
    })
}

// What a sign stands between: parallels, or factors.
#[cycle(factor_chain_operand)]
fn operand(sign: Sign, text: &[u8], room: usize, at: usize) -> Option<Found>
    ensures { Right (Operand sign text.now room at) result }
{
    match sign {
        Sign::Plus => chain(Sign::Bars, text, room, at),
        Sign::Bars => factor(text, room, at),
    }
}

// Operands of a sign with that sign between them: a sum, or a parallel.
#[cycle(factor_chain_operand)]
fn chain(sign: Sign, text: &[u8], room: usize, at: usize) -> Option<Found>
    ensures { Right (Chain sign (Operand sign text.now room) text.now at) result }
{
    let mut found = operand(sign, text, room, at)?;
    while stands(sign, text, found.end) {
        let next = operand(sign, text, room, after(sign, text, found.end))?;
        found = Found {
            end: next.end,
            worth: stages::joined(sign, found.worth, next.worth),
        };
    }
    Some(found)
}

// The value that begins at a place.
pub fn value(text: &[u8], at: usize) -> Option<Found>
    ensures { Right (Sum text.now most_open at) result }
{
    chain(Sign::Plus, text, MOST_OPEN, at)
}
