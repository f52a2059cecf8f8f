// The fields of a line, each where the one before it ends.
ghost use Rattle.std.specs.Prelude.{◌+◌, length};
ghost use Rattle.console.specs.Text.{HasRoom, Puts};
ghost use Rattle.report.specs.Fields.{column, last_column, named_line};

use console::text::Text;

// A number and a space.
pub fn put_column(text: &mut Text, n: u64)
    requires { HasRoom 21 text.old }
    ensures { Puts (column n) 21 text.old text.new }
{
    text.put_decimal(n);
    text.put_word(b" ");
}

// A number and the line's end.
pub fn put_last(text: &mut Text, n: u64)
    requires { HasRoom 21 text.old }
    ensures { Puts (last_column n) 21 text.old text.new }
{
    text.put_decimal(n);
    text.put_word(b"\n");
}

// A line of a word, which ends with its space, and a number.
pub fn put_named(text: &mut Text, word: &[u8], n: u64)
    requires { HasRoom (length word.now + 21) text.old }
    ensures { Puts (named_line word.now n) (length word.now + 21) text.old text.new }
{
    text.put_word(word);
    put_last(text, n);
}
