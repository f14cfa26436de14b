//! What may be known in front of an instruction.
use node_form::{RegionForm, SameKind};
use zpl_region::{Region, Vec3};

/// What may be known of all processors in front of an instruction.
#[derive(Clone, Copy, Debug)]
pub enum Fact {
    /// The scalar has one value on all processors.
    Uniform {
        scalar: u32,
    },
    /// The slot has this region.
    Stands {
        slot: u32,
        region: Region,
    },
    /// The slot was made by the form (`of` or `in`) of another slot's region and a vector.
    Made {
        form: RegionForm,
        slot: u32,
        from: u32,
        shift: Vec3,
    },
    /// The array has all places of the slot's region, moved by the vector.
    Held {
        slot: u32,
        array: u32,
        shift: Vec3,
    },
    /// The regions of two slots conform.
    Agree {
        target: u32,
        source: u32,
        kind: SameKind,
    },
    /// The border on this side of the slot's region conforms.
    Border {
        slot: u32,
        shift: Vec3,
    },
}
