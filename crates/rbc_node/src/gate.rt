/// Receives each commit at a node, by its centre's number. A test can hold one commit back until another is answered.
pub trait Gate {
    /// The lock of the centre's log is held, and the commit follows.
    fn inside(&self, centre: u8);

    /// The lock is free again, after any answer to the commit.
    fn after(&self, centre: u8);
}

/// The gate that holds nothing back.
#[derive(Clone, Copy, Debug)]
pub struct Open;

impl Gate for Open {
    fn inside(&self, _centre: u8) {}

    fn after(&self, _centre: u8) {}
}
