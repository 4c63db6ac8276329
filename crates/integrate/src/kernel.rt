// One run: states every 2 s, six numbers each, in a lent slice. Before them stand the field at one time, C and then S, and what the degree alone gives.
ghost use Rattle.std.specs.Prelude.{◌≡◌, ℕ, ◌+◌, ◌*◌, ◌<◌, ◌≤◌, true, length, slice_index_or};
ghost use Rattle.std.specs.Float.{nan};
ghost use Rattle.laws.specs.Times.{step_time};
ghost use Rattle.laws.specs.Loops.{cleared};
ghost use Rattle.laws.specs.Tables.{tri};
ghost use Rattle.model.specs.Calls.{at_left};
ghost use Rattle.legendre.specs.Prepared.{prepared};
ghost use Rattle.integrate.specs.Steps.{along_of, weighed_of, step_of, state_at};
ghost use Rattle.inputs.specs.Inputs.{front_size};
ghost use Rattle.inputs.specs.Lent.{model_of};
ghost use Rattle.integrate.specs.Force.{attraction_of, argument_of, acceleration_of, strengths_of, run_of, run_fits};
ghost use Rattle.integrate.specs.Room.{run_size, state_in, Only};
ghost use Rattle.integrate.specs.Work.{instant_of, Ready, Refreshed, Pulled, Pushed, Moved, Placed, Stored, Advanced, Begun, Flown, Ran};

#[derive(Clone, Copy)]
pub struct State {
    pub position: vectors::Vector,
    pub velocity: vectors::Vector,
}

// Start time, number of steps, and the revolution's node time and period.
#[derive(Clone, Copy)]
pub struct Arc {
    pub t0: f64,
    pub steps: usize,
    pub node: f64,
    pub period: f64,
}

// The attraction that a run integrates: the full model with tides, or point mass and J2.
// kept: an enum, since the definitions speak of these two; a closure would have to lend the model, its tables and the work slice.
#[derive(Clone, Copy)]
pub enum Force {
    Full,
    J2,
}

// A time, with what the tides take from it.
#[derive(Clone, Copy)]
pub struct Instant {
    pub time: f64,
    pub moment: forces::kernel::Moment,
}

impl Instant {
    fn of(t: f64) -> Self
        ensures { result ≡ instant_of t }
    {
        Self {
            time: t,
            moment: forces::kernel::sky_at(t),
        }
    }
}

#[derive(Clone, Copy)]
pub struct Push {
    pub known: Instant,
    pub pull: vectors::Vector,
}

#[derive(Clone, Copy)]
pub struct Stepped {
    pub known: Instant,
    pub state: State,
}

const STEP: f64 = 2.0;

// The states of the longest run, six numbers each.
const RUN_SIZE: usize = 31_818;

// An element, NaN past the end.
pub fn element(s: &[f64], i: usize) -> f64
    ensures { result ≡ slice_index_or s.now i nan }
{
    s.get(i).copied().unwrap_or(f64::NAN)
}

// Whether two times are the same to the bit; a NaN is never known.
// kept: `==` takes −0.0 for +0.0, and `to_bits` asks that its number is no NaN.
fn same_bits(a: f64, b: f64) -> bool
    ensures { result ≡ true → a ≡ b }
{
    (a == a && b == b) && f64::to_bits(a) == f64::to_bits(b)
}

// The field at t and what the degree gives, over whatever stood there.
fn fill(model: inputs::Model<'_>, t: f64, front: &mut [f64])
    ensures { front.new ≡ at_left (model_of model.entry) t (prepared model.entry.degree (cleared front.old)) }
{
    slices::clear(front);
    fields::kernel::prepare(model.degree, front);
    model::kernel::at(model, t, front);
}

// The angle from the node at a time.
#[tactic(auto, unfolding(crate::specs::Force::argument_of))]
fn argument(arc: Arc, t: f64) -> f64
    ensures { result ≡ argument_of arc t }
{
    2.0 * std::f64::consts::PI * (t - arc.node) / arc.period
}

// a + b·k
#[tactic(auto, unfolding(crate::specs::Steps::along_of))]
fn along(a: vectors::Vector, b: vectors::Vector, k: f64) -> vectors::Vector
    ensures { result ≡ along_of a b k }
{
    vectors::add(a, vectors::scale(b, k))
}

// a + 2b + (2c + d)
#[tactic(auto, unfolding(crate::specs::Steps::weighed_of))]
fn weighed(
    a: vectors::Vector,
    b: vectors::Vector,
    c: vectors::Vector,
    d: vectors::Vector,
) -> vectors::Vector
    ensures { result ≡ weighed_of a b c d }
{
    vectors::add(
        vectors::add(a, vectors::scale(b, 2.0)),
        vectors::add(vectors::scale(c, 2.0), d),
    )
}

// The time of step k.
#[tactic(auto, unfolding(laws::specs::Times::step_time, laws::specs::WholeNumbers::number))]
pub fn time(t0: f64, k: usize) -> f64
    ensures { result ≡ step_time t0 k }
{
    t0 + std::num::nearest_u64_to_f64(k as u64) * STEP
}

// Six numbers of a list, from a place in it or at its end.
#[tactic(auto, unfolding(crate::specs::Room::state_in))]
fn state_within(l: &[f64], i: usize) -> State
    requires { i ≤ length l.now }
    ensures { result ≡ state_in l.now i }
{
    let position = vectors::Vector {
        x: element(l, i),
        y: element(l, i + 1),
        z: element(l, i + 2),
    };
    let velocity = vectors::Vector {
        x: element(l, i + 3),
        y: element(l, i + 4),
        z: element(l, i + 5),
    };
    State { position, velocity }
}

// The same from any place, NaN past the end.
pub fn state_in(l: &[f64], i: usize) -> State
    ensures { result ≡ state_in l.now i }
{
    if i < l.len() {
        state_within(l, i)
    } else {
        state_within(l, l.len())
    }
}

// Three numbers into a list, where they have room.
pub fn put(w: &mut [f64], at: usize, v: vectors::Vector)
    ensures { Placed w.old w.new at v }
{
    if at < w.len() && 3 <= w.len() - at {
        w[at] = v.x;
        w[at + 1] = v.y;
        w[at + 2] = v.z;
    }
}

// The six of a state likewise.
pub fn put_state(w: &mut [f64], at: usize, s: State)
    ensures { Stored w.old w.new at s }
{
    if at < w.len() {
        put(w, at, s.position);
        put(w, at + 3, s.velocity);
    }
}

// What a run is flown by: its force, its arc and its nine empirical parameters, and where its states begin in the lent numbers.
#[derive(Clone, Copy)]
struct Flight<'a> {
    force: Force,
    model: inputs::Model<'a>,
    arc: Arc,
    strengths: [f64; 9],
    base: usize,
    ghost behind_front: { base ≡ front_size model.degree },
}

impl<'a> Flight<'a> {
    // The first instant of a run.
    fn open(&self, front: &mut [f64]) -> Instant
        requires { length front.old ≡ front_size self.now.model.degree }
        ensures { Ready (model_of self.now.model) front.new result × (length front.new ≡ length front.old) }
    {
        let t = self.arc.t0;
        fill(self.model, t, front);
        Instant::of(t)
    }

    // The instant of t; what is known stays where t is the same to the bit.
    // kept: `known, t`: the instant that is held and the time that is wanted. Each call answers a new instant, so a struct of both would be made anew for each.
    fn refresh(&self, known: Instant, t: f64, front: &mut [f64]) -> Instant
        ensures { Refreshed (model_of self.now.model) front.old front.new known t result }
    {
        if same_bits(known.time, t) {
            return known;
        }
        model::kernel::at(self.model, t, front);
        Instant::of(t)
    }

    // The full model's attraction with the tides.
    fn full_pull(&self, known: Instant, t: f64, x: vectors::Vector, front: &mut [f64]) -> Push
        ensures { Pulled (model_of self.now.model) front.old front.new known t x result }
    {
        let here = self.refresh(known, t, front);
        let model = self.model;
        let g = forces::kernel::gravity(
            model.degree,
            element(model.static_field, 0),
            element(model.static_field, 1),
            model.table_a,
            model.table_b,
            &front[..],
            x,
        );
        let pull = vectors::add(g, forces::kernel::tides_at(here.moment, x));
        Push { known: here, pull }
    }

    fn attraction(&self, known: Instant, t: f64, x: vectors::Vector, front: &mut [f64]) -> Push
        ensures { Pushed self.now.force (model_of self.now.model) front.old front.new known
            (attraction_of self.now.force (model_of self.now.model) t x) result }
    {
        match self.force {
            Force::Full => self.full_pull(known, t, x, front),
            Force::J2 => {
                let pull = forces::kernel::j2_gravity(x);
                Push { known, pull }
            }
        }
    }

    fn acceleration(
        &self,
        known: Instant,
        t: f64,
        x: vectors::Vector,
        v: vectors::Vector,
        front: &mut [f64],
    ) -> Push
        ensures { Pushed self.now.force (model_of self.now.model) front.old front.new known
            (acceleration_of (attraction_of self.now.force (model_of self.now.model)) self.now.arc self.now.strengths t x v) result }
    {
        let g = self.attraction(known, t, x, front);
        let f = forces::kernel::fictitious(x, v);
        let p = forces::kernel::empirical(x, v, argument(self.arc, t), self.strengths);
        let pull = vectors::add(g.pull, vectors::add(f, p));
        Push {
            known: g.known,
            pull,
        }
    }

    // One step by the classical Runge-Kutta rule.
    fn step(&self, known: Instant, t: f64, s: State, front: &mut [f64]) -> Stepped
        ensures { Moved self.now.force (model_of self.now.model) front.old front.new known
            (step_of (acceleration_of (attraction_of self.now.force (model_of self.now.model)) self.now.arc self.now.strengths) t s) result }
    {
        let h = STEP;
        let x = s.position;
        let v = s.velocity;
        let p1 = self.acceleration(known, t, x, v, front);
        let a1 = p1.pull;
        let x2 = along(x, v, h / 2.0);
        let v2 = along(v, a1, h / 2.0);
        let p2 = self.acceleration(p1.known, t + h / 2.0, x2, v2, front);
        let a2 = p2.pull;
        let x3 = along(x, v2, h / 2.0);
        let v3 = along(v, a2, h / 2.0);
        let p3 = self.acceleration(p2.known, t + h / 2.0, x3, v3, front);
        let a3 = p3.pull;
        let x4 = along(x, v3, h);
        let v4 = along(v, a3, h);
        let p4 = self.acceleration(p3.known, t + h, x4, v4, front);
        let a4 = p4.pull;
        let position = along(x, weighed(v, v2, v3, v4), h / 6.0);
        let velocity = along(v, weighed(a1, a2, a3, a4), h / 6.0);
        Stepped {
            known: p4.known,
            state: State { position, velocity },
        }
    }

    // Step k of a run: the next state, stored at its place.
    fn advance(&self, known: Instant, k: usize, s: State, w: &mut [f64]) -> Stepped
        requires few { k < 5302 }
        requires small { self.now.base ≤ 131768 }
        requires room { self.now.base + run_size ≤ length w.old }
        ensures { Advanced self.now.force (model_of self.now.model) w.old w.new self.now.base k known
            (step_of (acceleration_of (attraction_of self.now.force (model_of self.now.model)) self.now.arc self.now.strengths) (step_time self.now.arc.t0 k) s) result }
    {
        let t = time(self.arc.t0, k);
        let next = self.step(known, t, s, &mut w[0..self.base]);
        put_state(w, self.base + 6 * (k + 1), next.state);
        next
    }

    // The instant that a run begins with; the force without a model needs none.
    fn begin(&self, front: &mut [f64]) -> Instant
        requires { length front.old ≡ front_size self.now.model.degree }
        ensures { Begun self.now.force (model_of self.now.model) front.old front.new result }
    {
        match self.force {
            Force::Full => self.open(front),
            Force::J2 => Instant::of(self.arc.t0),
        }
    }

    fn fly(&self, start: State, w: &mut [f64])
        requires few { self.now.arc.steps ≤ 5302 }
        requires small { self.now.base ≤ 131768 }
        requires room { self.now.base + run_size ≤ length w.old }
        ensures { Flown w.old w.new self.now.base self.now.arc.steps
            (state_at (acceleration_of (attraction_of self.now.force (model_of self.now.model)) self.now.arc self.now.strengths) self.now.arc.t0 start) }
    {
        let mut known = self.begin(&mut w[0..self.base]);
        let mut state = start;
        put_state(w, self.base, state);
        for k in 0..self.arc.steps {
            let next = self.advance(known, k, state, w);
            known = next.known;
            state = next.state;
        }
    }
}

// The nine empirical parameters behind a state's six numbers.
#[tactic(auto, unfolding(crate::specs::Force::strengths_of, laws::specs::Tables::row))]
fn strengths(p: [f64; 15]) -> [f64; 9]
    ensures { result ≡ strengths_of p }
{
    [p[6], p[7], p[8], p[9], p[10], p[11], p[12], p[13], p[14]]
}

// Whether the lent numbers hold a run.
#[tactic(auto, unfolding(crate::specs::Force::run_fits))]
fn run_fits(degree: usize, steps: usize, room: usize) -> bool
    ensures { result ≡ run_fits degree steps room }
{
    (degree <= 180 && steps <= 5302) && inputs::front_size(degree) + RUN_SIZE <= room
}

// The states of a run from the first six parameters, behind the numbers before them; nothing is done where they do not fit.
pub fn run(force: Force, model: inputs::Model<'_>, arc: Arc, parameters: [f64; 15], w: &mut [f64])
    ensures { Ran (run_fits model.entry.degree arc.steps (length w.old)) w.old w.new (front_size model.entry.degree) arc.steps
        (run_of (attraction_of force (model_of model.entry)) arc parameters) }
{
    if run_fits(model.degree, arc.steps, w.len()) {
        let flight = Flight {
            force,
            model,
            arc,
            strengths: strengths(parameters),
            base: inputs::front_size(model.degree),
        };
        flight.fly(state_in(&parameters, 0), w);
    }
}
