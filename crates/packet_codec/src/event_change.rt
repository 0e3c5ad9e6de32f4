//! What becomes another in the event of a packet that is written again.

/// The change.
#[derive(Clone, Copy)]
pub enum Change<'t> {
    /// None at all.
    Nothing,
    /// The event goes under the route of this lane.
    Lane(u32),
    /// The event gets these tags, and none where the list is empty.
    Tags(&'t [&'t [u8]]),
}
