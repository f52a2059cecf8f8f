// What is answered of a measured list, as text in a lent buffer.
ghost use Rattle.std.specs.Prelude.{◌≤◌, length};
ghost use Rattle.console.specs.Text.{Adds};
ghost use Rattle.curve.specs.Text.{curve_of};
ghost use Rattle.curve.specs.Answer.{answer_to};

use super::pairs;
use console::text;

// The lines of a measured list, at the start of `buffer`. Where they end.
pub fn put(buffer: &mut [u8], list: &[u8]) -> usize
    requires { 4096 ≤ length buffer.old }
    ensures { Adds (answer_to (curve_of list.now)) 4096 0 buffer.old result buffer.new × (result ≤ length buffer.new) }
{
    match pairs::curve(list) {
        Ok(curve) => report::put_curve(buffer, curve),
        Err(refusal) => text::put_refused(buffer, u64::from(refusal)),
    }
}
