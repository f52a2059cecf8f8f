// What is answered of an image, as text in a lent buffer.
ghost use Rattle.std.specs.Prelude.{◌≤◌, length};
ghost use Rattle.image.specs.Conductance.{conductances_fit};
ghost use Rattle.image.specs.Format.{opening_of};
ghost use Rattle.image.specs.Setting.{plain};
ghost use Rattle.image.specs.Sound.{Sound};
ghost use Rattle.bound.specs.Answer.{Refusal, ReportOn, Answered};

use console::text;
use image::Parts;
use units::number::Number;

// `refused R`, at the start of `buffer`.
fn put_refused(buffer: &mut [u8], number: Number) -> usize
    requires { 4096 ≤ length buffer.old }
    ensures { Refusal number buffer.old result buffer.new × (result ≤ 4096) }
{
    text::put_refused(buffer, u64::from(number))
}

// The report on an opened image, or rule 6's number: reading alone does not ask it.
fn put_judged(buffer: &mut [u8], parts: Parts) -> usize
    requires { Sound parts × (4096 ≤ length buffer.old) }
    ensures { ReportOn parts (conductances_fit parts plain) buffer.old result buffer.new × (result ≤ 4096) }
{
    if image::conductances_fit(parts) {
        return report::put_bounds(buffer, parts);
    }
    put_refused(buffer, Number::Conductance)
}

// An image's report, or `refused R`, at the start of `buffer`. Where it ends.
pub fn put(buffer: &mut [u8], image: &[u8]) -> usize
    requires { 4096 ≤ length buffer.old }
    ensures { Answered (opening_of image.now) buffer.old result buffer.new × (result ≤ length buffer.new) }
{
    match image::read(image) {
        Ok(parts) => put_judged(buffer, parts),
        Err(number) => put_refused(buffer, number),
    }
}
