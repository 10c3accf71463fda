/// Where workers may be held up. It changes nothing that they see.
pub trait Gate: Sync {
    /// Called by a worker before each of its passes, which it counts from 1.
    fn turn(&self, worker: u32, pass: u64);
}

/// A gate that is always open.
#[derive(Clone, Copy, Debug)]
pub struct NoGate;

impl Gate for NoGate {
    fn turn(&self, _worker: u32, _pass: u64) {}
}
