use bits_core::Items;
use cyc_net::{Net, NodeList};

/// The nodes of the cycle net's bits, for each cycle.
pub type FrameList = Items<NodeList>;

/// The net of some cycles: how many leaves it has, and for each cycle the nodes of the bits.
#[derive(Debug, Drop)]
pub struct Unrolled {
    pub net: Net,
    pub leaves: u32,
    pub frames: FrameList,
}
