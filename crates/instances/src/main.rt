// What the compiled code gives at document 01's instances, a word a line in the order of the list; the expected output has the document's bits. The last
// two lines are counts.
#![tactic(auto)]

ghost use Rattle.std.specs.Prelude.{◌≡◌, ◌+◌, ◌≤◌, length};

fn roots() {
    replay::say_float(root::root(4.0));
    replay::say_float(root::root(2.0));
    replay::say_float(root::root(hexadecimal::float(1)));
}

fn angles() {
    replay::say_float(numbers::sine(0.0));
    replay::say_float(numbers::cosine(0.0));
    replay::say_float(numbers::arctangent(1.0, 1.0));
    replay::say_float(numbers::arctangent(0.0, -1.0));
}

// One revolution of n epochs, 2 s apart from 0 on, with the values 1, 2, 1, 2 and so on.
fn fill(work: &mut [f64], n: usize)
    requires { n + n ≤ length work.old }
    ensures { length work.new ≡ length work.old }
{
    let mut t = 0.0;
    let mut v = 1.0;
    for i in 0..n {
        work[i] = t;
        work[n + i] = v;
        t += 2.0;
        v = 3.0 - v;
    }
}

// How many of the values are still what they were.
fn unchanged(work: &[f64], n: usize) -> u64
    requires { n + n ≤ length work.now }
{
    let mut same = 0;
    let mut v = 1.0;
    for x in &work[n..n + n] {
        if *x == v {
            same += 1;
        }
        v = 3.0 - v;
    }
    same
}

// How many values of a revolution of n epochs detrending leaves alone.
fn left_alone(n: usize) -> u64
    requires { n ≤ 50 }
{
    let mut work = [0.0; 400];
    let nodes = [0.0, 200.0];
    fill(&mut work, n);
    detrend::kernel::remove_within(&mut work, n, &nodes);
    unchanged(&work, n)
}

// 49 epochs pass undetrended, 50 are fitted.
fn epochs() {
    replay::say(left_alone(49));
    replay::say(left_alone(50));
}

fn main() {
    roots();
    angles();
    replay::say_float(numbers::power(2.0, 10));
    epochs();
}
