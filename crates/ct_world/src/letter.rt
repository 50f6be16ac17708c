//! Wires and envelopes as they are shown.

/// What members send one another (Chandra and Toueg, section 6.2), with nothing in place of the values of consensus:
/// `World::value` gives these.
pub type Wire = ct_model::Wire<()>;

/// A wire, and the member that it goes to.
pub type Letter = ct_model::Envelope<()>;
