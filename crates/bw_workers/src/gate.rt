//! The gate: hooks around the draws of the workers, and the leaves that use their slices.
ghost use Rattle.std.specs.Prelude.{◌≡◌, ℕ, Bool, true};

/// Hooks around the draws of the workers, and the leaves that use their slices. The number of a
/// worker is that of its processor.
pub trait Gate: Sync {
    // Whether a leaf uses its slices. It depends on the value of the gate alone.
    ghost used: { Self → ℕ → Bool };

    /// Called before a worker's draw number `nth`, from 0. It may hold the worker until another one
    /// has come to some point.
    fn before(&self, worker: u32, nth: u64);

    /// Called after that draw is answered.
    fn after(&self, worker: u32, nth: u64);

    /// Whether a leaf uses its slices. The planner does not know it.
    fn uses(&self, leaf: u32) -> bool
        ensures { result ≡ used self.now leaf };
}

/// The gate that does nothing and uses every leaf.
#[derive(Clone, Copy, Debug)]
pub struct NoGate;

impl Gate for NoGate {
    ghost used = { λ gate leaf. true };

    fn before(&self, worker: u32, nth: u64) {
        let _ = (worker, nth);
    }

    fn after(&self, worker: u32, nth: u64) {
        let _ = (worker, nth);
    }

    fn uses(&self, leaf: u32) -> bool {
        let _ = leaf;
        true
    }
}
