//! Laws that say what the text means. Each is the contract of a function that does nothing.
ghost use Rattle.xn_show.specs.Laws.{GraphIsWeb, TurnsGoRound};

/// With room for the web of a drawing, the graph of the text that shows the drawing is that web, each node with its number as its id.
pub fn shown_graph()
    ensures { GraphIsWeb }
{}

/// In a map the darts that are shown at a node are all of its darts, each once, from the least one on.
pub fn shown_turns()
    ensures { TurnsGoRound }
{}
