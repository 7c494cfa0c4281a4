// What is seen of a loose drawing.
ghost use Rattle.std.specs.Prelude.{◌≡◌, ◌<◌, length};
ghost use Rattle.xn_insert.specs.ListedLoose.{walk_of};

use crate::loose::Loose;

impl Loose {
    /// The number of segments of an edge, one more than of its crossings, or none where it isn't in.
    pub fn segments_along(&self, e: u32) -> usize
        requires { e < length self.now.walks }
        ensures { result ≡ length (walk_of self.now.walks e) }
    {
        self.walks.at(e as usize).len()
    }
}
