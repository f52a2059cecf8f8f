// What a circuit does in one sample, as definitions and laws. Its only code names the kinds of element.
#![tactic(auto)]

pub mod kind;
