// One epoch's record, with no tests of its numbers.
ghost use Rattle.std.specs.Prelude.{◌≡◌, [], ◌∷◌};
ghost use Rattle.forces.specs.Forces.{gravity_with};
ghost use Rattle.epoch.specs.Epoch.{sight_of, along_of, tides_term, frame_term, velocity_term, middle_of, record_of, epoch_with};

// From C to D, of length 1.
#[tactic(auto, unfolding(crate::specs::Epoch::sight_of))]
fn sight(rc: vectors::Vector, rd: vectors::Vector) -> vectors::Vector
    ensures { result ≡ sight_of rc rd }
{
    let apart = vectors::sub(rd, rc);
    vectors::scale(apart, 1.0 / vectors::norm(apart))
}

// What is at D less what is at C, along a line.
#[tactic(auto, unfolding(crate::specs::Epoch::along_of))]
fn along(line: vectors::Vector, d: vectors::Vector, c: vectors::Vector) -> f64
    ensures { result ≡ along_of line d c }
{
    vectors::dot(line, vectors::sub(d, c))
}

#[tactic(auto, unfolding(crate::specs::Epoch::tides_term, forces::specs::Forces::tides_of))]
fn tides_term(t: f64, rc: vectors::Vector, rd: vectors::Vector) -> f64
    ensures { result ≡ tides_term t rc rd }
{
    let moment = forces::kernel::sky_at(t);
    let d = forces::kernel::tides_at(moment, rd);
    let c = forces::kernel::tides_at(moment, rc);
    along(sight(rc, rd), d, c)
}

#[tactic(auto, unfolding(crate::specs::Epoch::frame_term))]
fn frame_term(
    rc: vectors::Vector,
    vc: vectors::Vector,
    rd: vectors::Vector,
    vd: vectors::Vector,
) -> f64
    ensures { result ≡ frame_term rc vc rd vd }
{
    let d = forces::kernel::fictitious(rd, vd);
    let c = forces::kernel::fictitious(rc, vc);
    along(sight(rc, rd), d, c)
}

#[tactic(auto, unfolding(crate::specs::Epoch::velocity_term))]
fn velocity_term(
    rc: vectors::Vector,
    vc: vectors::Vector,
    rd: vectors::Vector,
    vd: vectors::Vector,
) -> f64
    ensures { result ≡ velocity_term rc vc rd vd }
{
    let dv = vectors::sub(vd, vc);
    let rate = vectors::dot(sight(rc, rd), dv);
    (vectors::dot(dv, dv) - numbers::power(rate, 2)) / vectors::norm(vectors::sub(rd, rc))
}

fn middle(a: vectors::Vector, b: vectors::Vector) -> vectors::Vector
    ensures { result ≡ middle_of a b }
{
    vectors::scale(vectors::add(a, b), 0.5)
}

#[tactic(auto, unfolding(crate::specs::Epoch::record_of))]
fn record(
    t: f64,
    observed: f64,
    gravity: f64,
    tides: f64,
    frame: f64,
    accelerometers: f64,
    velocity: f64,
    mid: vectors::Vector,
    vel: vectors::Vector,
) -> epoch_record::Epoch
    ensures { result ≡ record_of t observed (gravity ∷ tides ∷ frame ∷ accelerometers ∷ velocity ∷ []) mid vel }
{
    let terms = [gravity, tides, frame, accelerometers, velocity];
    let total = 0.0 + gravity + tides + frame + accelerometers + velocity;
    let mid = [mid.x, mid.y, mid.z];
    let vel = [vel.x, vel.y, vel.z];
    epoch_record::Epoch {
        t,
        residual: observed - total,
        terms,
        mid,
        vel,
    }
}

// The record of an epoch; `work` has the prepared numbers of the degree and the field at t in front.
#[tactic(auto, unfolding(crate::specs::Epoch::epoch_with, crate::specs::Epoch::gravity_term))]
pub fn epoch_at(
    degree: usize,
    gm: f64,
    radius: f64,
    a: &[f64],
    b: &[f64],
    work: &[f64],
    t: f64,
    observed: f64,
    rc: vectors::Vector,
    vc: vectors::Vector,
    rd: vectors::Vector,
    vd: vectors::Vector,
    axc: f64,
    axd: f64,
) -> epoch_record::Epoch
    ensures { result ≡ epoch_with (gravity_with degree gm radius a.now b.now work.now) t observed rc vc rd vd axc axd }
{
    let d = forces::kernel::gravity(degree, gm, radius, a, b, work, rd);
    let c = forces::kernel::gravity(degree, gm, radius, a, b, work, rc);
    record(
        t,
        observed,
        along(sight(rc, rd), d, c),
        tides_term(t, rc, rd),
        frame_term(rc, vc, rd, vd),
        -axd - axc,
        velocity_term(rc, vc, rd, vd),
        middle(rc, rd),
        middle(vc, vd),
    )
}
