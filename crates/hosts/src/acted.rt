//! What comes of what a host is asked.

use map_release::Numbered;
use node::NodeFault;
use seats::Acted;

/// What comes of what is asked of the node of an epoch.
#[derive(Drop)]
pub enum HostActed {
    /// The node did what it was asked, and this came of it.
    Of(Acted),
    /// A value was offered to a node that leads, and its next place is beyond those that count. Nothing changed.
    Ended,
    /// The epoch is above the host's own one by 2 or more. Nothing changed.
    Ahead,
    /// The epoch is below the host's own one by 2 or more, or it is 0. Nothing changed.
    Gone,
    /// Who asks has other places in an epoch than the host. Nothing changed.
    OtherPlaces,
}

/// What comes of a release.
#[derive(Drop)]
pub enum Given {
    /// These outputs, numbered over all epochs, the number of the host's epoch, and the first place of it that the host lacks.
    Outputs {
        outputs: Vec<Numbered>,
        epoch: u64,
        place: u64,
    },
    /// The next epoch's node couldn't be opened, or there was no memory. What wasn't given is given later.
    Failed(NodeFault),
}
