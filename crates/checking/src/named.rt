// The pairs of region and face that proof lines have named.
ghost use Rattle.std.specs.Prelude.{◌≡◌, ◌<◌, ◌≤◌, true, not, [], length, IfSome, position};
ghost use Rattle.std.specs.List.{range_with_len};
ghost use Rattle.control.specs.Limits.{most_regions};
ghost use Rattle.checking.specs.Checking.{pair, absent_face, all_named};
ghost use Rattle.checking.specs.Marks.{most_faces, whole, marked, Adds, Marks};

use crate::faults::{CheckFault, Pair};

// A place for each number of a region or a face, from 1 to 16; place 0 stays unused.
const PLACES: usize = 17;

// A region and a face, both counted from 1.
#[derive(Clone, Copy)]
pub(crate) struct PairIndex {
    pub(crate) region: usize,
    pub(crate) face: usize,
    ghost region_in: { (1 ≤ region) × (region ≤ most_regions) },
    ghost face_in: { (1 ≤ face) × (face ≤ most_faces) },
}

impl From<PairIndex> for Pair {
    ghost from_gives = { λ i p. p ≡ pair i.region i.face };

    fn from(index: PairIndex) -> Pair {
        Pair {
            region: index.region as u32,
            face: index.face as u32,
        }
    }
}

// The place of the first flag that is not set.
fn first_unset(flags: &[bool]) -> Option<usize>
    ensures value { result ≡ position not flags.now }
    ensures inside { IfSome result (λ place. place < length flags.now) }
{
    flags.iter().position(|flag| !*flag)
}

// A flag for each face of each region, at the places that their numbers give; set once a line has named the pair.
#[derive(Drop)]
pub(crate) struct Named {
    flags: [[bool; PLACES]; PLACES],
    ghost whole: { whole flags ≡ true },
}

impl Named {
    // No pair.
    pub(crate) fn none() -> Named
        ensures { Marks result.flags [] }
    {
        Named {
            flags: [[false; PLACES]; PLACES],
        }
    }

    // Whether a line has named the pair.
    pub(crate) fn has(&self, index: PairIndex) -> bool
        ensures { result ≡ marked self.now.flags index.region index.face }
    {
        self.flags[index.region][index.face]
    }

    // One pair more.
    pub(crate) fn add(&mut self, index: PairIndex)
        ensures { Adds self.old.flags self.new.flags index.region index.face }
    {
        self.flags[index.region][index.face] = true;
    }

    // The first face, up to so many, that no line has named with the region.
    fn first_absent(&self, region: usize, faces: usize) -> Option<usize>
        requires region { region ≤ most_regions }
        requires faces { faces ≤ most_faces }
        ensures value { result ≡ absent_face (marked self.now.flags) region (range_with_len 1 faces) }
        ensures small { IfSome result (λ face. face ≤ faces) }
    {
        let before = first_unset(&self.flags[region][1..faces + 1])?;
        Some(before + 1)
    }

    // Whether lines have named every pair up to so many regions and faces; else the first that they have not, by region
    // and then face. The two counts are no struct: nothing else is asked of both.
    pub(crate) fn all(&self, regions: usize, faces: usize) -> Result<(), CheckFault>
        requires regions { regions ≤ most_regions }
        requires faces { faces ≤ most_faces }
        ensures { result ≡ all_named (marked self.now.flags) (range_with_len 1 regions) (range_with_len 1 faces) }
    {
        // Regions are numbers here, and no items of a list.
        for region in 1..=regions {
            if let Some(face) = self.first_absent(region, faces) {
                return Err(CheckFault::Absent(Pair {
                    region: region as u32,
                    face: face as u32,
                }));
            }
        }
        Ok(())
    }
}
