// What an argument asks for: a version, or nothing, and then it names a file.
ghost use Rattle.std.specs.Prelude.{◌≡◌};
ghost use Rattle.netlist_main.specs.Asked.{asked_of};

use console::words;
use console::words::Run;

const MINUS: u8 = 45;

// A minus and a number are a version. One above 255 is kept as 255, as numbers of a netlist are, and is
// refused alike.
pub fn version(argument: &[u8]) -> Option<u8>
    ensures { result ≡ asked_of argument.now }
{
    let n = argument.len();
    let end = words::past(Run::Digits, argument, 1);
    if (words::byte_at(argument, 0) == MINUS) & (1 < n) & (end == n) {
        return Some(netlist::byte(argument, 1));
    }
    None
}
