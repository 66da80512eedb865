ghost use Rattle.checker.specs.Running.{SomeLoads, SomeRun};

use stand::Stand;

// Equations that are still loaded. Some loads led to what stands.
#[derive(Drop)]
pub struct System {
    pub(crate) stand: Stand,
    ghost run: { SomeLoads stand },
}

// A system that is opened: what stands, and which of A to Z are the variables of the system. Some loads and choices led to it.
#[derive(Drop)]
pub struct Check {
    pub(crate) stand: Stand,
    pub(crate) system: [bool; 26],
    ghost run: { SomeRun stand system },
}
