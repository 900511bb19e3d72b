/// A place that a worker passes before each first offer of a piece, so that a test can hold it up.
pub trait Gate: Sync {
    /// The worker is about to offer the chunk's piece to the stripe.
    fn pass(&self, worker: u32, chunk: u32, stripe: u32);
}

/// A gate that holds nobody up.
#[derive(Clone, Copy, Debug, PartialEq, Eq)]
pub struct OpenGate;

impl Gate for OpenGate {
    fn pass(&self, _worker: u32, _chunk: u32, _stripe: u32) {}
}
