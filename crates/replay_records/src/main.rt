// Replays the oracle's list of `remove_per_revolution` over records: each call is the number of records and these, the number of nodes and these, and the
// length of the scratch, which holds 7.0 before the call. A record is its time, residual, five terms, midpoint and velocity. Printed are the answer, each
// record whole, and what became of the scratch.
#![tactic(auto)]

ghost use Rattle.std.specs.Prelude.{◌≡◌, ◌≤◌, take};
ghost use Rattle.record_detrending.specs.Calls.{left_records, remove_call};

use epoch_record::Epoch;
use replay::Said;
use slices::Refusal;

// What the call answered, and the records after it.
#[derive(Clone, Copy)]
struct Left {
    answer: Result<(), Refusal>,
    epochs: [Epoch; 128],
}

fn read_epoch() -> Epoch {
    let t = replay::float();
    let residual = replay::float();
    let mut terms = [0.0; 5];
    let mut mid = [0.0; 3];
    let mut vel = [0.0; 3];
    replay::fill(&mut terms, 5);
    replay::fill(&mut mid, 3);
    replay::fill(&mut vel, 3);
    Epoch {
        t,
        residual,
        terms,
        mid,
        vel,
    }
}

fn say_epoch(e: Epoch) {
    e.t.say();
    e.residual.say();
    e.terms.say();
    e.mid.say();
    e.vel.say();
}

fn read_epochs(n: usize) -> [Epoch; 128]
    requires { n ≤ 128 }
{
    let none = Epoch {
        t: 0.0,
        residual: 0.0,
        terms: [0.0; 5],
        mid: [0.0; 3],
        vel: [0.0; 3],
    };
    let mut epochs = [none; 128];
    for epoch in epochs[..n].iter_mut() {
        *epoch = read_epoch();
    }
    epochs
}

// The first n records with each revolution's fit removed, and the others.
fn removed(mut epochs: [Epoch; 128], n: usize, nodes: &[f64], scratch: &mut [f64]) -> Left
    requires { n ≤ 128 }
    ensures { left_records result.answer (take n result.epochs) scratch.new ≡ remove_call (take n epochs) nodes.now
        scratch.old }
{
    let answer = record_detrending::remove_per_revolution(&mut epochs[..n], nodes, scratch);
    Left { answer, epochs }
}

fn answer() {
    let mut u = [0.0; 66];
    let mut w = [7.0; 1100];
    let n = replay::count(128);
    let epochs = read_epochs(n);
    let nodes = replay::full_list(&mut u);
    let scratch = replay::front(&mut w);
    let left = removed(epochs, n, nodes, scratch);
    left.answer.say();
    for epoch in &left.epochs[..n] {
        say_epoch(*epoch);
    }
    replay::say_left(scratch, 7.0);
}

fn main() {
    for _ in replay::each_call() {
        answer();
    }
}
