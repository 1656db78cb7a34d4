// The order of a step.

// The outputs are set before the observation is read, or after it.
#[derive(Clone, Copy, Debug, PartialEq, Eq)]
pub enum Order {
    Set,
    Read,
}
