// What is called round each line.

/// What is called before and after each line is answered, in the thread of its worker. A test holds one line until
/// another is answered.
pub trait Gate {
    /// `line`: its number in the input, from 0.
    fn before(&self, line: u64);

    /// `line`: its number in the input, from 0.
    fn after(&self, line: u64);
}

/// Holds nothing.
pub struct NoGate;

impl Gate for NoGate {
    fn before(&self, line: u64) {
        let _ = line;
    }

    fn after(&self, line: u64) {
        let _ = line;
    }
}
