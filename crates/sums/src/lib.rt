// What the sums of the record are made of. Internal: `walk`, `volume` and `qto` ask it.
#![tactic(auto)]

mod bounds; // the box
mod totals; // thresholds, the slope of a facet, and the sums that take it
mod triangle; // one triangle, on its way to the facet that it adds

pub use bounds::{Bounds, box_of, box_volume, extent, origin};
pub use totals::{Areas, Slope, Thresholds, Totals, thresholds_of};
pub use triangle::{Facet, Prepared, cross_at, facet_by, nothing, with_root};
