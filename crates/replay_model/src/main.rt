// Replays the oracle's list of the model: each call is its number and its arguments, a word a line; a slice is preceded by
// its length. Outputs stand at 3.0 and scratch at 7.0 before a call.
#![tactic(auto)]

use inputs::Model;
use replay::{Said, Word};

fn covers() {
    let mut room = [0.0; 40];
    let times = replay::full_list(&mut room);
    let t = replay::float();
    model::covers(times, t).say();
}

// The lengths of the outputs and of the scratch come next.
fn public_at(model: Model<'_>, t: f64) {
    let mut x = [3.0; 240];
    let mut y = [3.0; 240];
    let mut w = [7.0; 160000];
    let cosines = replay::front(&mut x);
    let sines = replay::front(&mut y);
    let scratch = replay::front(&mut w);
    model::at(model, t, cosines, sines, scratch).say();
    replay::say_all(cosines);
    replay::say_all(sines);
    replay::say_left(scratch, 7.0);
}

// The length of the output comes next.
fn kernel_at(model: Model<'_>, t: f64) {
    let mut x = [3.0; 480];
    let out = replay::front(&mut x);
    model::kernel::at(model, t, out);
    replay::say_all(out);
}

// Call 1 is the public one, call 2 the kernel.
fn at(call: u64) {
    let mut f = [0.0; 500];
    let mut x = [0.0; 40];
    let mut g = [0.0; 3000];
    let degree = usize::read();
    let static_field = replay::full_list(&mut f);
    let field_times = replay::full_list(&mut x);
    let added = replay::full_list(&mut g);
    let t = replay::float();
    let model = Model {
        degree,
        static_field,
        table_a: static_field,
        table_b: static_field,
        field_times,
        added,
    };
    if call == 1 {
        public_at(model, t);
    } else {
        kernel_at(model, t);
    }
}

// The bracket and its weight.
fn weight() {
    let mut room = [0.0; 40];
    let times = replay::full_list(&mut room);
    let t = replay::float();
    let j = model::kernel::bracket(times, t);
    j.say();
    model::kernel::weight(times, t, j).say();
}

fn answer(call: u64) {
    match call {
        0 => covers(),
        3 => weight(),
        _ => at(call),
    }
}

fn main() {
    for call in replay::each_call() {
        answer(call);
    }
}
