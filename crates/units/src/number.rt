// Document 01's numbers by name: what every call answers with. 1 to 6 are the image's, 7 and 8 a
// block's, 9 to 11 a sample's.
ghost use Rattle.std.specs.Prelude.{◌≡◌};
ghost use Rattle.units.specs.Number.{number_of};

#[derive(Clone, Copy, PartialEq, Eq, Debug)]
pub enum Number {
    Done,
    Length,
    Trailer,
    Sizes,
    Curve,
    Element,
    Conductance,
    State,
    Lengths,
    Drive,
    Rail,
    Stored,
}

impl From<Number> for u64 {
    ghost from_gives = { λ number n. n ≡ number_of number };

    fn from(number: Number) -> u64 {
        match number {
            Number::Done => 0,
            Number::Length => 1,
            Number::Trailer => 2,
            Number::Sizes => 3,
            Number::Curve => 4,
            Number::Element => 5,
            Number::Conductance => 6,
            Number::State => 7,
            Number::Lengths => 8,
            Number::Drive => 9,
            Number::Rail => 10,
            Number::Stored => 11,
        }
    }
}
