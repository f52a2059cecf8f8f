// Text in a lent buffer, put together from left to right: what is put stands from the cursor's end on, and
// every other byte is as it was.
ghost use Rattle.std.specs.Prelude.{◌≡◌, ◌≤◌, length};
ghost use Rattle.console.specs.Text.{decimal, sign, number, line, refused_line, Adds, HasRoom, Puts};

// A cursor: the text in `buffer` ends at `end`.
#[derive(Drop)]
pub struct Text<'a> {
    pub buffer: &'a mut [u8],
    pub end: usize,
}

impl<'a> Text<'a> {
    // No text yet, at the start of a buffer.
    pub fn new(buffer: &'a mut [u8]) -> Text<'a>
        ensures same_reference { result.buffer.ghost_name ≡ buffer.entry.ghost_name }
        ensures bytes { result.buffer.now ≡ buffer.old }
        ensures end { result.end ≡ 0 }
    {
        Text { buffer, end: 0 }
    }

    // A word as it stands.
    pub fn put_word(&mut self, word: &[u8])
        requires { HasRoom (length word.now) self.old }
        ensures { Puts word.now (length word.now) self.old self.new }
    {
        let end = self.end + word.len();
        self.buffer[self.end..end].copy_from_slice(word);
        self.end = end;
    }

    // A number's decimal digits.
    pub fn put_decimal(&mut self, n: u64)
        requires { HasRoom 20 self.old }
        ensures { Puts (decimal n) 20 self.old self.new }
    {
        let mut spelt = [0u8; 20];
        let k = io::decimal(n, &mut spelt);
        self.put_word(&spelt[..k]);
    }

    // The sign of a number below zero.
    fn put_sign(&mut self, z: i64)
        requires { HasRoom 1 self.old }
        ensures { Puts (sign z) 1 self.old self.new }
    {
        if z < 0 {
            self.put_word(b"-");
        }
    }

    // A number with its sign.
    pub fn put_number(&mut self, z: i64)
        requires { HasRoom 21 self.old }
        ensures { Puts (number z) 21 self.old self.new }
    {
        self.put_sign(z);
        self.put_decimal(z.unsigned_abs());
    }

    // The same, and the line's end.
    pub fn put_line(&mut self, z: i64)
        requires { HasRoom 22 self.old }
        ensures { Puts (line z) 22 self.old self.new }
    {
        self.put_number(z);
        self.put_word(b"\n");
    }
}

// `refused R`, as a line at the start of `buffer`. Where it ends.
pub fn put_refused(buffer: &mut [u8], number: u64) -> usize
    requires { 29 ≤ length buffer.old }
    ensures { Adds (refused_line number) 29 0 buffer.old result buffer.new }
{
    let mut text = Text::new(buffer);
    text.put_word(b"refused ");
    text.put_decimal(number);
    text.put_word(b"\n");
    text.end
}
