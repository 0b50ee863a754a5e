// The pairs of a body.
ghost use Rattle.std.specs.Prelude.{◌≡◌, ◌≤◌, length};

use sw_text::Name;
use sw_world::GrowingPairs;

/// The body's path, the known and the asked pairs, and how many of them were taken.
#[derive(Drop)]
pub struct Asked {
    pub path: Name,
    pub pairs: GrowingPairs,
    pub at: usize,
    pub ghost within: { at ≤ length pairs.items },
}

impl Asked {
    /// With these known pairs, none of which is taken yet.
    pub fn new(path: Name, pairs: GrowingPairs) -> Asked
        ensures path { result.path ≡ path }
        ensures pairs { result.pairs ≡ pairs }
        ensures at { result.at ≡ 0 }
    {
        Asked { path, pairs, at: 0 }
    }

    /// Begins anew: all pairs are known.
    pub fn restart(&mut self)
        ensures path { self.new.path ≡ self.old.path }
        ensures pairs { self.new.pairs ≡ self.old.pairs }
        ensures at { self.new.at ≡ 0 }
    {
        self.at = 0;
    }
}
