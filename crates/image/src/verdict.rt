// The number that a circuit's parts are answered by, for readers of other things than images: rules 2
// to 6 in their order, without those of the image's layout, which are the reader's.
ghost use Rattle.std.specs.Prelude.{◌≡◌};
ghost use Rattle.image.specs.Judged.{judged};

use super::parts::Parts;
use super::{conductances, rules};
use units::number::Number;

// Takes any parts whatever. The lowest number that applies is the answer.
#[tactic(auto, using(crate::proofs::Says::few_curves, crate::proofs::Says::few_elements), unfolding(crate::specs::Judged::judged))]
pub fn judge(parts: Parts) -> Number
    ensures { result ≡ judged parts }
{
    if !rules::header_fits(&parts) {
        return Number::Trailer;
    }
    if !rules::curve_sizes_fit(&parts) {
        return Number::Sizes;
    }
    if !rules::curves_fit(&parts) {
        return Number::Curve;
    }
    if !rules::elements_fit(&parts) {
        return Number::Element;
    }
    if !conductances::conductances_fit(parts) {
        return Number::Conductance;
    }
    Number::Done
}
