//! The lock, over the counter that pie_lock has for tests. The results of its calls are proved, with three exceptions: there is memory, a free lock
//! is taken and closed (src/links.rt), and threads that sleep at a held lock are woken. After a missed wake a test does not end.
ghost use Rattle.std.specs.Prelude.{◌≡◌, Some};
ghost use Rattle.pie_lock.specs.Rule.{Represents};

use pie_lock::{Counter, CounterEntry, Held, Pass, RuledLock, no_entries, one_entry};
use std::alloc::Global;
use std::sync::Wait;
use std::thread;
use std::thread::{Threads, sleep};
use std::time::{Clock, Duration};

/// Time for which each thread holds the lock, in milliseconds: long enough for waiting threads to spin, to yield
/// and to sleep.
const LONG: u64 = 200;

/// A thread at the lock.
#[derive(Drop)]
struct AtLock<'a> {
    lock: &'a RuledLock<Counter>,
    pass: Pass<Counter>,
    ghost own: { pass.lock ≡ lock.now },
}

/// Adds one, and puts the counter back.
fn add_one(lock: &RuledLock<Counter>, mut held: Held<Counter>, caller: u16) -> Pass<Counter>
    requires own { held.lock ≡ lock.now }
    requires caller { held.first ≡ caller }
    requires kept { (held.lock.origin ≡ Some tt) × Represents held.state held.front }
    ensures { result.lock ≡ lock.now }
{
    if held.state().add(1) {
        let entry = CounterEntry { caller, amount: 1 };
        lock.put(held, one_entry(&entry))
    } else {
        lock.put(held, no_entries())
    }
}

/// Holds the lock for a long time.
fn hold<R: Clock>(rt: &R) {
    sleep(rt, Duration::from_millis(LONG));
}

/// Makes one turn of a thread that waits for the lock.
fn waiting_turn<R: Wait + Clock>(rt: &R, lock: &RuledLock<Counter>, pass: Pass<Counter>)
    requires own { pass.lock ≡ lock.now }
{
    let caller = pass.first();
    let (held, due) = lock.take(rt, pass);
    hold(rt);
    let pass = add_one(lock, held, caller);
    lock.wake(&pass, due);
}

/// Makes one turn of a thread. If the lock is free, the turn wakes no thread: sleeping threads have to look again.
fn turn<R: Wait + Clock>(rt: &R, place: AtLock) {
    let AtLock { lock, pass } = place;
    let caller = pass.first();
    match lock.try_take(pass) {
        Ok(held) => {
            hold(rt);
            let _ = add_one(lock, held, caller);
        }
        Err(pass) => waiting_turn(rt, lock, pass),
    }
}

/// Returns this many threads at the lock. (If memory is short, there are fewer.)
fn threads_at<'a>(alloc: Global, place: &mut AtLock<'a>, threads: u16) -> Vec<AtLock<'a>> {
    let mut all = Vec::new(alloc);
    for _ in 0..threads {
        if let Ok(pass) = place.lock.share(&mut place.pass) {
            let _ = all.push(AtLock {
                lock: place.lock,
                pass,
            });
        }
    }
    all
}

/// Returns true if a lock has counted three.
fn has_three<R: Wait>(rt: &R, place: AtLock) -> bool {
    let AtLock { lock, pass } = place;
    let (mut held, due) = lock.take(rt, pass);
    let counter = held.state();
    let (count, total) = (counter.count(), counter.total());
    let pass = lock.put(held, no_entries());
    lock.wake(&pass, due);
    count == 3 && total == 3
}

/// Returns true if all three threads have had the state: two sleep while the first has it, and one still sleeps while the second has it. (Without
/// memory there are fewer threads, and the test fails.)
pub(crate) fn all_wake<R: Threads + Wait + Clock + Sync>(rt: &R, alloc: Global) -> bool {
    match RuledLock::new(alloc, Counter::new(), 4) {
        Ok((lock, pass)) => {
            let mut place = AtLock { lock: &lock, pass };
            let threads = threads_at(alloc, &mut place, 3);
            let are_done = thread::map_vec(rt, threads, &|place: AtLock| { turn(rt, place) });
            are_done.is_ok() & has_three(rt, place)
        }
        Err(_) => false,
    }
}
