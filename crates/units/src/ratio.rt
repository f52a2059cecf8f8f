// Quotients of whole numbers to the nearest whole number.
ghost use Rattle.std.specs.Prelude.{◌≡◌};
ghost use Rattle.units.specs.Ratio.{nearest_ratio};

// a / b, halves upward; anything divided by 0 is 0. What is left over is compared with what is missing to
// the next whole number: neither side is doubled, so that any two numbers will do.
pub fn nearest(a: u64, b: u64) -> u64
    ensures { result ≡ nearest_ratio a b }
{
    if b == 0 {
        return 0;
    }
    let whole = a / b;
    let over = a % b;
    if over < b - over {
        return whole;
    }
    whole + 1
}
