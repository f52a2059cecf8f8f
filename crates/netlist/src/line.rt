// A line: what it begins with, and what it says by that.
ghost use Rattle.std.specs.Prelude.{◌≡◌};
ghost use Rattle.console.specs.Words.{first};
ghost use Rattle.console.specs.declared.words.Run.TheVariants as run;
ghost use Rattle.netlist.specs.Kept.{kept_line, Right};
ghost use Rattle.netlist.specs.Line.{same, by_letter, by_word, opener_of, after_name, second_node, value_place, headed, element_line, plain_line, SaysBy, Says};
ghost use Rattle.netlist.specs.declared.line.Opener.TheVariants.{Resistor, Plain, Setting};

use super::said::{Field, Line};
use super::{curve, field};
use console::words::Run;
use console::{number, words};
use image::Element;
use network::kind::Kind;

// A resistor, another element by its kind, a setting, a curve, or none of these.
#[derive(Clone, Copy)]
enum Opener {
    Empty,
    Resistor,
    Plain(Kind),
    Setting(Field),
    Curves,
    Other,
}

// Whether a word is a name's bytes.
fn is(word: &[u8], name: &[u8]) -> bool
    ensures { result ≡ same word.now name.now }
{
    check::same(word, name)
}

// By the letter of a kind.
fn by_letter(letter: u8) -> Opener
    ensures { result ≡ by_letter letter }
{
    match letter {
        b'R' => Opener::Resistor,
        b'C' => Opener::Plain(Kind::Capacitor),
        b'L' => Opener::Plain(Kind::Inductor),
        b'D' => Opener::Plain(Kind::Diode),
        _ => Opener::Other,
    }
}

// By the word that a line begins with, or else by its letter.
fn by_word(word: &[u8], letter: u8) -> Opener
    ensures { result ≡ by_word word.now (by_letter letter) }
{
    if is(word, b"drives") {
        return Opener::Setting(Field::Drives);
    }
    if is(word, b"output") {
        return Opener::Setting(Field::Output);
    }
    if is(word, b"rate") {
        return Opener::Setting(Field::Rate);
    }
    if is(word, b"curve") {
        return Opener::Curves;
    }
    by_letter(letter)
}

// What a line begins with.
fn opened(s: &[u8]) -> Opener
    ensures { result ≡ opener_of s.now }
{
    let at = words::past(Run::Blanks, s, 0);
    if s.len() <= at {
        return Opener::Empty;
    }
    let rest = &s[at..];
    by_word(words::first(Run::Name, rest), s[at])
}

// The place after an element's name, where its first node is.
fn after_name(s: &[u8]) -> usize
    ensures { result ≡ after_name s.now }
{
    field::next(Run::Name, s, words::past(Run::Blanks, s, 0))
}

// Its second node.
fn second_node(s: &[u8]) -> usize
    ensures { result ≡ second_node s.now }
{
    field::next(Run::Digits, s, after_name(s))
}

// Its value.
fn value_place(s: &[u8]) -> usize
    ensures { result ≡ value_place s.now }
{
    field::next(Run::Digits, s, second_node(s))
}

// Whether a name and two nodes stand there.
fn headed(s: &[u8]) -> bool
    ensures { result ≡ headed s.now }
{
    field::stands(Run::Name, s, words::past(Run::Blanks, s, 0))
        & field::stands(Run::Digits, s, after_name(s))
        & field::stands(Run::Digits, s, second_node(s))
}

// An element, if its value is within the limits.
fn element_line(kind: Kind, curve: u8, s: &[u8], worth: Option<u32>) -> Line
    ensures { result ≡ kept_line (element_line kind curve s.now worth) }
{
    match worth {
        Some(value) => {
            let p = field::byte(s, after_name(s));
            let q = field::byte(s, second_node(s));
            Line::Part(Element {
                kind: u8::from(kind),
                p,
                q,
                curve,
                value,
            })
        }
        None => Line::Outside,
    }
}

// An element with a plain number for its value.
fn plain_line(kind: Kind, s: &[u8]) -> Line
    ensures { result ≡ kept_line (plain_line kind s.now) }
{
    let at = value_place(s);
    match kind {
        Kind::Diode => element_line(kind, field::byte(s, at), s, Some(0)),
        _ => element_line(kind, 0, s, ohms::stage(number::worth_at(s, at))),
    }
}

// A resistor, whose value is all that remains.
fn resistor(s: &[u8]) -> Line
    ensures { Right (SaysBy Resistor s.now) result }
{
    if !headed(s) {
        return Line::Broken;
    }
    match ohms::value(s, value_place(s)) {
        Some(found) if found.end == s.len() => { element_line(Kind::Resistor, 0, s, found.worth) }
        _ => Line::Broken,
    }
}

// Another element, whose value is a number.
fn plain(kind: Kind, s: &[u8]) -> Line
    ensures { Right (SaysBy (Plain kind) s.now) result }
{
    if !headed(s) {
        return Line::Broken;
    }
    if !field::ends(s, value_place(s)) {
        return Line::Broken;
    }
    plain_line(kind, s)
}

// A setting and its number.
fn setting(field: Field, s: &[u8]) -> Line
    ensures { Right (SaysBy (Setting field) s.now) result }
{
    let at = after_name(s);
    if !field::ends(s, at) {
        return Line::Broken;
    }
    Line::Setting(field, field::word(s, at))
}

// By what it begins with.
fn say(s: &[u8]) -> Line
    ensures { Right (Says s.now) result }
{
    match opened(s) {
        Opener::Empty => Line::Empty,
        Opener::Resistor => resistor(s),
        Opener::Plain(kind) => plain(kind, s),
        Opener::Setting(field) => setting(field, s),
        Opener::Curves => curve::read(s, after_name(s)),
        Opener::Other => Line::Broken,
    }
}

// What a line says, up to its comment.
pub fn read(line: &[u8]) -> Line
    ensures { Right (Says (first run.Said line.now)) result }
{
    say(words::first(Run::Said, line))
}
