//! Runs jobs in the threads of a scope, and joins them.
ghost use Rattle.std.specs.Prelude.{◌≡◌, ◌≤◌, [], IfErr, IfOk, length, vec_capacity};
ghost use Rattle.thread_workers.specs.ServerWorkers.{Pairwise};

use crate::pace::Pace;
use std::snapshot::Snapshot;
use std::sync::Wait;
use std::thread::{Promise, PromisedHandle, Scope, Threads, scope, scope_env};

/// What a thread is given.
pub(crate) trait Job<B>: Drop {
    /// What it gives back.
    ghost keeps: { Self → B → Type 0 };

    /// Works.
    fn run(self) -> B
        ensures { keeps self result };
}

/// What a thread promises: what its job keeps.
#[derive(Drop)]
struct Gives<J> {
    job: Snapshot<J>,
}

impl<B, J: Job<B>> Promise<B> for Gives<J> {
    ghost kept_by = { λ p r. J.keeps p.job.value r };
}

/// A job in a thread, or what it gave back where no thread could be had and it was run here.
type Started<B, J> = Result<PromisedHandle<B, Gives<J>>, B>;

/// Starts the job with a number in a thread of the scope, or runs it here; the first one, which comes last, is run here at once.
fn start<'s, B: Drop + Send + 's, J: Job<B> + Send + 's, E>(
    scope: &'s Scope<'s, E>,
    pace: &Pace,
    number: usize,
    job: J,
) -> Started<B, J>
    ensures there { IfOk result (λ h. h.promise.job.value ≡ job) }
    ensures here { IfErr result (λ e. J.keeps job e) }
{
    if number == 0 {
        return Err(job.run());
    }
    let gives = Gives {
        job: Snapshot::of(&job),
    };
    match scope.spawn_with(
        gives,
        move || -> B
            ensures { J.keeps job result }
        { job.run() },
    ) {
        Ok(handle) => Ok(handle),
        Err(refused) => {
            pace.refuse(number);
            Err((refused.value)())
        }
    }
}

/// What a job gives back, once its thread has ended.
fn finish<B: Drop + Send, J: Job<B>, R: Threads + Wait>(rt: &R, started: Started<B, J>) -> B
    ensures there { IfOk started (λ h. J.keeps h.promise.job.value result) }
    ensures here { IfErr started (λ e. result ≡ e) }
{
    match started {
        Ok(handle) => handle.join(rt),
        Err(ended) => ended,
    }
}

/// Starts all jobs, the last ones first, and joins them.
fn start_all<'s, B: Drop + Send + 's, J: Job<B> + Send + 's, E, R: Threads + Wait>(
    rt: &R,
    scope: &'s Scope<'s, E>,
    pace: &Pace,
    mut jobs: Vec<J>,
    done: Vec<B>,
) -> Vec<B>
    requires empty { done.items ≡ [] }
    requires room { length jobs.items ≤ vec_capacity done }
    ensures kept { Pairwise J.keeps jobs.items result.items }
    ensures capacity { vec_capacity result ≡ vec_capacity done }
{
    let Some(job) = jobs.pop() else {
        return done;
    };
    let started = start(scope, pace, jobs.len(), job);
    let mut done = start_all(rt, scope, pace, jobs, done);
    done.push_reserved(finish(rt, started));
    done
}

/// Runs all jobs, the first one here and each other one in a thread where one can be had, and gives what each gave back, in their order.
pub(crate) fn run_all<B: Drop + Send, J: Job<B> + Send, R: Threads + Wait>(
    rt: &R,
    pace: &Pace,
    jobs: Vec<J>,
    done: Vec<B>,
) -> Vec<B>
    requires empty { done.items ≡ [] }
    requires room { length jobs.items ≤ vec_capacity done }
    ensures kept { Pairwise J.keeps jobs.items result.items }
    ensures capacity { vec_capacity result ≡ vec_capacity done }
{
    scope(
        scope_env(),
        rt,
        |scope| -> Vec<B>
            requires { (done.items ≡ []) × (length jobs.items ≤ vec_capacity done) }
            ensures kept { Pairwise J.keeps jobs.items result.items }
            ensures capacity { vec_capacity result ≡ vec_capacity done }
        { start_all(rt, scope, pace, jobs, done) },
    )
}
