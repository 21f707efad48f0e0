// The thresholds of an edition, the slope of a facet by them, and the running sums that take it.
ghost use Rattle.std.specs.Prelude.{◌≡◌};
ghost use Rattle.sums.specs.Editions.{thresholds_of};
ghost use Rattle.sums.specs.Totals.{on_slope, scaled_areas, slope_of, no_totals, with_facet};

use crate::triangle::Facet;

#[derive(Clone, Copy)]
pub enum Slope {
    Top,
    Bottom,
    Side,
    Inclined,
}

// Above the first, or below its negative, a unit normal's z is steep enough for top and bottom; its magnitude under the second is side.
#[derive(Clone, Copy)]
pub struct Thresholds {
    pub top: f32,
    pub side: f32,
}

// The pair of an edition: 2 has that of 2027, 1 has 01's. Any other number gets 01's too; it is refused before it comes here.
// Stays: by the number, since the C interface passes it, and the definition `thresholds_of` is of every number.
#[tactic(auto, using(crate::proofs::Editions::pair_of_2, crate::proofs::Editions::pair_of_others))]
pub fn thresholds_of(edition: u32) -> Thresholds
    ensures { result ≡ thresholds_of edition }
{
    if edition == 2 {
        return Thresholds {
            top: 0.866,
            side: 0.5,
        };
    }
    Thresholds {
        top: 0.940,
        side: 0.342,
    }
}

#[tactic(auto, using(crate::proofs::Slopes::by_tests))]
fn slope_of(pair: Thresholds, z: f32) -> Slope
    ensures { result ≡ slope_of pair z }
{
    if z > pair.top {
        return Slope::Top;
    }
    if z < -pair.top {
        return Slope::Bottom;
    }
    let magnitude = floats::magnitude(z);
    if magnitude < pair.side {
        return Slope::Side;
    }
    Slope::Inclined
}

// The areas of the facets, by slope.
#[derive(Clone, Copy)]
pub struct Areas {
    pub top: f32,
    pub bottom: f32,
    pub side: f32,
    pub inclined: f32,
}

impl Areas {
    // An area more on a slope.
    pub fn on_slope(mut self, to: Slope, area: f32) -> Areas
        ensures { result ≡ on_slope to area self }
    {
        match to {
            Slope::Top => self.top += area,
            Slope::Bottom => self.bottom += area,
            Slope::Side => self.side += area,
            Slope::Inclined => self.inclined += area,
        }
        self
    }

    // Each times a number.
    pub fn scaled(self, by: f32) -> Areas
        ensures { result ≡ scaled_areas by self }
    {
        Areas {
            top: self.top * by,
            bottom: self.bottom * by,
            side: self.side * by,
            inclined: self.inclined * by,
        }
    }
}

// The running sums: two in f64, the areas by slope in f32.
#[derive(Clone, Copy)]
pub struct Totals {
    pub surface: f64,
    pub volume6: f64,
    pub areas: Areas,
}

impl Totals {
    pub fn none() -> Totals
        ensures { result ≡ no_totals }
    {
        let areas = Areas {
            top: 0.0,
            bottom: 0.0,
            side: 0.0,
            inclined: 0.0,
        };
        Totals {
            surface: 0.0,
            volume6: 0.0,
            areas,
        }
    }

    // Takes one triangle's area, volume term and slope, and hands itself back.
    pub fn add(mut self, pair: Thresholds, f: Facet) -> Totals
        ensures { result ≡ with_facet pair self f }
    {
        self.surface += f.area;
        self.volume6 += f.volume;
        self.areas = self.areas.on_slope(slope_of(pair, f.nz), f.area32);
        self
    }
}
