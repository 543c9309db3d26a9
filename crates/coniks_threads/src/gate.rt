//! The gate that a worker passes before each job.

/// A gate that each worker passes before each job, once, on its own thread. It returns.
pub trait Gate {
    /// Called by a worker with the number of the job that it is about to do.
    fn enter(&self, job: usize);
}

/// A gate that lets each job pass.
#[derive(Clone, Copy, Debug, Drop)]
pub struct Open;

impl Gate for Open {
    fn enter(&self, _job: usize) {}
}
