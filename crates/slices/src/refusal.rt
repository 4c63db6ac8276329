// Why a call is refused.
ghost use Rattle.std.specs.Prelude.{◌≡◌};
ghost use Rattle.slices.specs.Answers.{number_of};

#[derive(Clone, Copy, Debug, PartialEq, Eq)]
pub enum Refusal {
    // The degree is not 2 to 180.
    Degree,
    // A count, an index or a range is out of its bounds.
    Count,
    // The lengths of lent slices do not fit one another, or the scratch is too short.
    Length,
    // An input is not finite, or a time or a key is out of its bounds.
    Value,
    // A list of times or keys does not rise strictly.
    Order,
    // The field times do not reach over a time that is asked for: the model's, or an end of an arc.
    Uncovered,
    // Fewer positions are known than a fit needs.
    TooFew,
    // No state is known at the start of a fit.
    NoStart,
    // A pivot of the normal equations is below 1e-12.
    Singular,
    // A number that was worked out, and would be handed out, is not finite.
    NotFinite,
}

// The number that the C interface answers; 0 stands for acceptance there.
impl From<Refusal> for u8 {
    ghost from_gives = { λ r n. n ≡ number_of r };

    fn from(refusal: Refusal) -> u8 {
        match refusal {
            Refusal::Degree => 1,
            Refusal::Count => 2,
            Refusal::Length => 3,
            Refusal::Value => 4,
            Refusal::Order => 5,
            Refusal::Uncovered => 6,
            Refusal::TooFew => 7,
            Refusal::NoStart => 8,
            Refusal::Singular => 9,
            Refusal::NotFinite => 10,
        }
    }
}
