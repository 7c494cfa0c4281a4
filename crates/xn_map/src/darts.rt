// A dart that goes to another node.
ghost use Rattle.std.specs.Prelude.{◌≡◌, ◌*◌, ◌/◌, ◌<◌, length, set};
ghost use Rattle.xn_model.specs.Graph.{ends_at};
ghost use Rattle.xn_graph.specs.Limits.{graph_of};
ghost use Rattle.xn_map.specs.Anchored.{ends_moved};
ghost use Rattle.xn_map.specs.Cutting.{MovesDart};

use xn_graph::Web;

/// Moves a dart to a node.
pub fn move_dart(web: &mut Web, d: u32, v: u32)
    requires dart { d < 2 * length web.old.ends }
    requires node { v < web.old.nodes }
    ensures exactly { web.new ≡ graph_of web.old.nodes (set web.old.ends (d / 2) (ends_moved d v (ends_at web.old.ends (d / 2)))) }
    ensures moved { MovesDart d v web.old web.new }
{
    let (first, second) = web.end(d / 2);
    if d % 2 == 0 {
        web.set_end(d / 2, v, second);
    } else {
        web.set_end(d / 2, first, v);
    }
}
