// One epoch's record (document 01, module 5).
#![tactic(auto)]

#[derive(Clone, Copy)]
pub struct Epoch {
    pub t: f64,
    pub residual: f64,
    // Gravity, tides with Sun and Moon, rotating frame, accelerometers, velocity.
    pub terms: [f64; 5],
    // The pair's midpoint and its velocity, Earth-fixed.
    pub mid: [f64; 3],
    pub vel: [f64; 3],
}
