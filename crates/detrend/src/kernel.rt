// What the whole path runs, with no tests of the numbers and no bound on their count.
ghost use Rattle.std.specs.Prelude.{◌≤◌, ◌<◌, length};
ghost use Rattle.detrend.specs.Work.{RemovedWithin};

// Each revolution's fit removed from the n values of a work area: n times, n values, rows behind them, at least 8 n numbers. A smaller one stays as it is.
pub fn remove_within(work: &mut [f64], n: usize, nodes: &[f64])
    ensures { RemovedWithin n nodes.now work.old work.new }
{
    if n <= work.len() / 8 && !nodes.is_empty() {
        crate::work::remove_all(&mut work[0..8 * n], nodes);
    }
}
