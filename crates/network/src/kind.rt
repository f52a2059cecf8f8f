// The kinds of element, by document 01's numbers.
ghost use Rattle.std.specs.Prelude.{◌≡◌};
ghost use Rattle.network.specs.Kind.{number_of, kind_of, has_curve, stores};

#[derive(Clone, Copy, PartialEq, Eq, Debug)]
pub enum Kind {
    Resistor,
    Capacitor,
    Inductor,
    Diode,
}

impl Kind {
    // The kind that has this number, if one does.
    pub fn of(number: u64) -> Option<Kind>
        ensures { result ≡ kind_of number }
    {
        match number {
            1 => Some(Kind::Resistor),
            2 => Some(Kind::Capacitor),
            3 => Some(Kind::Inductor),
            4 => Some(Kind::Diode),
            _ => None,
        }
    }
}

impl From<Kind> for u8 {
    ghost from_gives = { λ kind n. n ≡ number_of kind };

    fn from(kind: Kind) -> u8 {
        match kind {
            Kind::Resistor => 1,
            Kind::Capacitor => 2,
            Kind::Inductor => 3,
            Kind::Diode => 4,
        }
    }
}

// Whether the current of an element of this number follows a curve; that of any other goes by a conductance.
pub fn has_curve(kind: u64) -> bool
    ensures { result ≡ has_curve kind }
{
    Kind::of(kind) == Some(Kind::Diode)
}

// Whether it stores a current from one sample to the next.
pub fn stores(kind: u64) -> bool
    ensures { result ≡ stores kind }
{
    matches!(Kind::of(kind), Some(Kind::Capacitor | Kind::Inductor))
}
