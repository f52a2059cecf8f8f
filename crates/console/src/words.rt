// Text taken apart: what stands at its start and is of one kind, and what follows on that.
ghost use Rattle.std.specs.Prelude.{◌≡◌, ◌≤◌, length, get_or};
ghost use Rattle.console.specs.Words.{is_blank, is_naming, belongs, leading, first, rest, past};

// Blanks between words; a word; a line up to its end; what a line says up to its comment; the digits
// of a number; a name.
#[derive(Clone, Copy)]
pub enum Run {
    Blanks,
    Word,
    Line,
    Said,
    Digits,
    Name,
}

// Space, tab, and the carriage return that some systems put before a line's end.
fn is_blank(byte: u8) -> bool
    ensures { result ≡ is_blank byte }
{
    matches!(byte, b' ' | b'\t' | b'\r')
}

// A letter, a digit or an underscore.
fn is_naming(byte: u8) -> bool
    ensures { result ≡ is_naming byte }
{
    byte.is_ascii_alphanumeric() || byte == b'_'
}

// Whether a byte belongs to the run.
fn belongs(run: Run, byte: u8) -> bool
    ensures { result ≡ belongs run byte }
{
    match run {
        Run::Blanks => is_blank(byte),
        Run::Word => !is_blank(byte),
        Run::Line => byte != b'\n',
        Run::Said => byte != b';',
        Run::Digits => byte.is_ascii_digit(),
        Run::Name => is_naming(byte),
    }
}

// How many bytes at the start belong to the run.
fn leading(run: Run, text: &[u8]) -> usize
    ensures value { result ≡ leading (belongs run) text.now }
    ensures within { result ≤ length text.now }
{
    text.iter().take_while(|byte| belongs(run, **byte)).count()
}

// Those bytes.
pub fn first<'a>(run: Run, text: &'a [u8]) -> &'a [u8]
    ensures { result.now ≡ first run text.now }
{
    let n = leading(run, text);
    &text[..n]
}

// The bytes after them.
pub fn rest<'a>(run: Run, text: &'a [u8]) -> &'a [u8]
    ensures { result.now ≡ rest run text.now }
{
    let n = leading(run, text);
    &text[n..]
}

// The byte at a place, 0 past the end.
pub fn byte_at(text: &[u8], at: usize) -> u8
    ensures { result ≡ get_or text.now at 0 }
{
    text.get(at).copied().unwrap_or(0)
}

// The place after those bytes that stand from a place on.
pub fn past(run: Run, text: &[u8], at: usize) -> usize
    ensures { result ≡ past run text.now at }
{
    at + leading(run, text.get(at..).unwrap_or(&[]))
}
