//! What a job is, and what comes of it.

ghost use Rattle.std.specs.Prelude.{◌≡◌};
ghost use Rattle.job_queue.specs.Jobs.{done_of};

/// A job that was done.
#[derive(Clone, Copy, Debug, PartialEq, Eq)]
pub struct Done {
    pub number: u64,
    pub result: u64,
}

/// Does the job of this number, in whichever thread: its square, modulo 2^64.
pub fn do_job(number: u64) -> Done
    ensures { result ≡ done_of number }
{
    let result = number.wrapping_mul(number);
    Done { number, result }
}
