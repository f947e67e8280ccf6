/// Something that each worker passes before its first pair. It can be shared by threads.
pub trait Gate: Sync {
    /// Passes the worker of this number, counted from 0.
    fn pass(&self, worker: u32);
}

/// The gate that lets everyone pass.
#[derive(Clone, Copy, Debug)]
pub struct Free;

impl Gate for Free {
    fn pass(&self, _worker: u32) {}
}
