// The places of the Sun and the Moon (module 2 of document 01). Crate `forces` has the call that tests its argument.
#![tactic(auto)]

use vectors;

pub mod kernel;

// Earth-fixed, metres.
#[derive(Clone, Copy)]
pub struct SunMoon {
    pub sun: vectors::Vector,
    pub moon: vectors::Vector,
}
