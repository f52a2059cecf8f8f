// What values come to, stage by stage: a whole number within the limits of a value, or nothing once a
// stage was outside them.
ghost use Rattle.std.specs.Prelude.{◌≡◌};
ghost use Rattle.ohms.specs.Worth.{together, stage, joined};
ghost use Rattle.ohms.specs.declared.stages.Sign.TheVariants.{Bars};

// In series, and in parallel.
#[derive(Clone, Copy)]
pub enum Sign {
    Plus,
    Bars,
}

// A number that was written, or a result. The greatest value is the greatest that an image holds.
pub fn stage(n: u64) -> Option<u32>
    ensures { result ≡ stage n }
{
    if n == 0 {
        return None;
    }
    u32::try_from(n).ok()
}

// Two resistances in parallel, rounded down; nothing beside nothing is nothing.
fn parallel(a: u32, b: u32) -> u64
    ensures { result ≡ together Bars a b }
{
    let sum = u64::from(a) + u64::from(b);
    if sum == 0 {
        return 0;
    }
    u64::from(a) * u64::from(b) / sum
}

// What a sign makes of two numbers, which need not be within the limits.
fn together(sign: Sign, a: u32, b: u32) -> u64
    ensures { result ≡ together sign a b }
{
    match sign {
        Sign::Plus => u64::from(a) + u64::from(b),
        Sign::Bars => parallel(a, b),
    }
}

// What a sign makes of the values on both its sides.
pub fn joined(sign: Sign, v: Option<u32>, w: Option<u32>) -> Option<u32>
    ensures { result ≡ joined sign v w }
{
    stage(together(sign, v?, w?))
}
