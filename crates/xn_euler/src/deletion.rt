ghost use Rattle.std.specs.Prelude.{◌<◌, length};
ghost use Rattle.xn_map.specs.Changes.{Deletes, StaysFlat};

use xn_map::Map;

/// Takes a segment out of its rings; the last one takes its number. Nodes stay, and a flat map stays flat. It takes no memory.
pub fn delete_edge(map: &mut Map, s: u32)
    requires { s < length map.old.web.ends }
    ensures deleted { Deletes map.old s map.new }
    ensures flat { StaysFlat map.old map.new }
{
    map.remove_edge(s);
}
