ghost use Rattle.xn_map.specs.Changes.{StaysFlat};
ghost use Rattle.xn_map.specs.Passing.{HasTwoDarts, Smooths};

use xn_map::Map;

/// Takes away a node with two darts, of two segments. The segment with the smaller number joins the two far ends and keeps
/// its direction; the last segment takes the number of the other, and the last node that of v. A flat map stays flat. It
/// takes no memory.
pub fn smooth(map: &mut Map, v: u32)
    requires { HasTwoDarts map.old v }
    ensures smoothed { Smooths map.old v map.new }
    ensures flat { StaysFlat map.old map.new }
{
    map.pass_node(v);
}
