// Replays the oracle's list of `integrate`: each call is its number and its arguments, a word a line; a slice is preceded by
// its length. The output stands at 3.0 and the scratch at 7.0 before a call.
#![tactic(auto)]

use inputs::Model;
use integrate::kernel::{Arc, Force};
use replay::{Said, Word};

// kept: `replay_orbits` has this function too: `Arc` is a type of `integrate`, on which crate `replay` does not depend.
fn arc_of() -> Arc {
    let t0 = replay::float();
    let steps = usize::read();
    let node = replay::float();
    let period = replay::float();
    Arc {
        t0,
        steps,
        node,
        period,
    }
}

// 0 is the full model.
fn force_of() -> Force {
    if replay::number() == 0 {
        Force::Full
    } else {
        Force::J2
    }
}

// A start's six numbers and nine empirical parameters.
fn parameters() -> [f64; 15] {
    let mut p = [0.0; 15];
    replay::fill(&mut p, 15);
    p
}

// The lengths of the output and of the scratch come next, and then the force, the arc and the parameters.
fn with_model(model: Model<'_>) {
    let mut x = [3.0; 640];
    let mut w = [7.0; 160000];
    let out = replay::front(&mut x);
    let scratch = replay::front(&mut w);
    let force = force_of();
    let arc = arc_of();
    let start = parameters();
    integrate::integrate(force, model, arc, start, out, scratch).say();
    replay::say_all(out);
    replay::say_left(scratch, 7.0);
}

fn answer() {
    let mut f = [0.0; 200];
    let mut p = [0.0; 100];
    let mut q = [0.0; 100];
    let mut t = [0.0; 40];
    let mut g = [0.0; 640];
    let degree = usize::read();
    let static_field = replay::full_list(&mut f);
    let table_a = replay::full_list(&mut p);
    let table_b = replay::full_list(&mut q);
    let field_times = replay::full_list(&mut t);
    let added = replay::full_list(&mut g);
    with_model(Model {
        degree,
        static_field,
        table_a,
        table_b,
        field_times,
        added,
    });
}

fn main() {
    for _ in replay::each_call() {
        answer();
    }
}
