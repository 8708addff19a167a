//! The policies of buffers, as the rows of the meaning name them.

/// Which buffer a channel has.
#[derive(Clone, Copy)]
pub enum Policy {
    NoBuffer,
    Fixed,
    Dropping,
    Sliding,
    Promise,
}
