// Texts of graphs and of answers.

/// The drawing of K4.
pub const K4: &str = "crossing-answer 1\n\
    graph 4 6\n\
    loops 0\n\
    edge 0 1\n\
    edge 0 2\n\
    edge 0 3\n\
    edge 1 2\n\
    edge 1 3\n\
    edge 2 3\n\
    bounds 0 0\n\
    effort 0 0\n\
    along 0\n\
    along 0\n\
    along 0\n\
    along 0\n\
    along 0\n\
    along 0\n\
    turn 2 8\n\
    turn 4 7\n\
    turn 0 11\n\
    turn 1 10\n\
    turn 6 5\n\
    turn 3 9\n\
    drawn\n\
    rows 0\n\
    tree\n\
    leaf 1 0\n\
    end\n";

/// K5 with one crossing.
pub const K5: &str = "crossing-answer 1\n\
    graph 5 10\n\
    loops 0\n\
    edge 0 1\n\
    edge 0 2\n\
    edge 0 3\n\
    edge 0 4\n\
    edge 1 2\n\
    edge 1 3\n\
    edge 1 4\n\
    edge 2 3\n\
    edge 2 4\n\
    edge 3 4\n\
    bounds 1 1\n\
    effort 1 300\n\
    along 1 9\n\
    along 0\n\
    along 0\n\
    along 0\n\
    along 0\n\
    along 0\n\
    along 0\n\
    along 0\n\
    along 0\n\
    along 1 0\n\
    turn 6 22\n\
    turn 21 14\n\
    turn 8 16\n\
    turn 4 20\n\
    turn 0 19\n\
    turn 12 18\n\
    turn 3 17\n\
    turn 10 23\n\
    turn 11 7\n\
    turn 5 15\n\
    turn 13 1\n\
    turn 2 9\n\
    drawn\n\
    rows 1\n\
    row 10\n\
    over 0 0\n\
    over 1 0\n\
    over 2 0\n\
    over 3 0\n\
    over 4 0\n\
    over 5 0\n\
    over 6 0\n\
    over 7 0\n\
    over 8 0\n\
    over 9 0\n\
    five 0 1 2 3 4\n\
    path 1 0\n\
    path 1 1\n\
    path 1 2\n\
    path 1 3\n\
    path 1 4\n\
    path 1 5\n\
    path 1 6\n\
    path 1 7\n\
    path 1 8\n\
    path 1 9\n\
    tree\n\
    leaf 1 1 0 1\n\
    end\n";

/// K5 and two edges far from it, with a weak leaf.
pub const K5_AND_TWO: &str = "crossing-answer 1\n\
    graph 9 12\n\
    loops 0\n\
    edge 0 1\n\
    edge 0 2\n\
    edge 0 3\n\
    edge 0 4\n\
    edge 1 2\n\
    edge 1 3\n\
    edge 1 4\n\
    edge 2 3\n\
    edge 2 4\n\
    edge 3 4\n\
    edge 5 6\n\
    edge 7 8\n\
    bounds 1 1\n\
    effort 1 300\n\
    along 1 9\n\
    along 0\n\
    along 0\n\
    along 0\n\
    along 0\n\
    along 0\n\
    along 0\n\
    along 0\n\
    along 0\n\
    along 1 0\n\
    along 0\n\
    along 0\n\
    turn 6 22\n\
    turn 21 14\n\
    turn 8 16\n\
    turn 4 20\n\
    turn 0 19\n\
    turn 12 18\n\
    turn 3 17\n\
    turn 10 23\n\
    turn 11 7\n\
    turn 5 15\n\
    turn 13 1\n\
    turn 2 9\n\
    turn 24 25\n\
    turn 26 27\n\
    drawn\n\
    rows 1\n\
    row 12\n\
    over 0 0\n\
    over 1 0\n\
    over 2 0\n\
    over 3 0\n\
    over 4 0\n\
    over 5 0\n\
    over 6 0\n\
    over 7 0\n\
    over 8 0\n\
    over 9 0\n\
    over 10 1 11\n\
    over 11 1 10\n\
    five 0 1 2 3 4\n\
    path 1 0\n\
    path 1 1\n\
    path 1 2\n\
    path 1 3\n\
    path 1 4\n\
    path 1 5\n\
    path 1 6\n\
    path 1 7\n\
    path 1 8\n\
    path 1 9\n\
    tree\n\
    pair 10 11\n\
    leaf 1 1 0 9223372036854775807\n\
    leaf 1 0\n\
    end\n";

/// A graph without nodes.
pub const EMPTY: &str = "crossing-answer 1\n\
    graph 0 0\n\
    loops 0\n\
    bounds 0 0\n\
    effort 0 10000\n\
    drawn\n\
    rows 0\n\
    tree\n\
    leaf 1 0\n\
    end\n";

/// The graph K5.
pub const K5_GRAPH: &str = "graph [ \
    node [ id 0 ] \
    node [ id 1 ] \
    node [ id 2 ] \
    node [ id 3 ] \
    node [ id 4 ] \
    edge [ source 0 target 1 ] \
    edge [ source 0 target 2 ] \
    edge [ source 0 target 3 ] \
    edge [ source 0 target 4 ] \
    edge [ source 1 target 2 ] \
    edge [ source 1 target 3 ] \
    edge [ source 1 target 4 ] \
    edge [ source 2 target 3 ] \
    edge [ source 2 target 4 ] \
    edge [ source 3 target 4 ] \
    ]";

/// K5 with two far edges.
pub const K5_AND_TWO_GRAPH: &str = "graph [ \
    node [ id 0 ] \
    node [ id 1 ] \
    node [ id 2 ] \
    node [ id 3 ] \
    node [ id 4 ] \
    node [ id 5 ] \
    node [ id 6 ] \
    node [ id 7 ] \
    node [ id 8 ] \
    edge [ source 0 target 1 ] \
    edge [ source 0 target 2 ] \
    edge [ source 0 target 3 ] \
    edge [ source 0 target 4 ] \
    edge [ source 1 target 2 ] \
    edge [ source 1 target 3 ] \
    edge [ source 1 target 4 ] \
    edge [ source 2 target 3 ] \
    edge [ source 2 target 4 ] \
    edge [ source 3 target 4 ] \
    edge [ source 5 target 6 ] \
    edge [ source 7 target 8 ] \
    ]";

/// K3,3 with one crossing, and its own evidence.
pub const K33: &str = "crossing-answer 1\n\
    graph 6 9\n\
    loops 0\n\
    edge 0 3\n\
    edge 0 4\n\
    edge 0 5\n\
    edge 1 3\n\
    edge 1 4\n\
    edge 1 5\n\
    edge 2 3\n\
    edge 2 4\n\
    edge 2 5\n\
    bounds 1 1\n\
    effort 1 300\n\
    along 1 8\n\
    along 0\n\
    along 0\n\
    along 0\n\
    along 0\n\
    along 0\n\
    along 0\n\
    along 0\n\
    along 1 0\n\
    turn 4 20\n\
    turn 19 9\n\
    turn 6 17\n\
    turn 0 13\n\
    turn 12 15\n\
    turn 8 5\n\
    turn 10 21\n\
    turn 16 3\n\
    turn 18 11\n\
    turn 14 1\n\
    turn 2 7\n\
    drawn\n\
    rows 1\n\
    row 9\n\
    over 0 0\n\
    over 1 0\n\
    over 2 0\n\
    over 3 0\n\
    over 4 0\n\
    over 5 0\n\
    over 6 0\n\
    over 7 0\n\
    over 8 0\n\
    three 0 1 2 3 4 5\n\
    path 1 0\n\
    path 1 1\n\
    path 1 2\n\
    path 1 3\n\
    path 1 4\n\
    path 1 5\n\
    path 1 6\n\
    path 1 7\n\
    path 1 8\n\
    tree\n\
    leaf 1 1 0 1\n\
    end\n";

/// The graph K3,3.
pub const K33_GRAPH: &str = "graph [ \
    node [ id 0 ] \
    node [ id 1 ] \
    node [ id 2 ] \
    node [ id 3 ] \
    node [ id 4 ] \
    node [ id 5 ] \
    edge [ source 0 target 3 ] \
    edge [ source 0 target 4 ] \
    edge [ source 0 target 5 ] \
    edge [ source 1 target 3 ] \
    edge [ source 1 target 4 ] \
    edge [ source 1 target 5 ] \
    edge [ source 2 target 3 ] \
    edge [ source 2 target 4 ] \
    edge [ source 2 target 5 ] \
    ]";

/// The graph K5 with each edge cut by a node.
pub const K5_CUT_GRAPH: &str = "graph [ \
    node [ id 0 ] \
    node [ id 1 ] \
    node [ id 2 ] \
    node [ id 3 ] \
    node [ id 4 ] \
    node [ id 5 ] \
    node [ id 6 ] \
    node [ id 7 ] \
    node [ id 8 ] \
    node [ id 9 ] \
    node [ id 10 ] \
    node [ id 11 ] \
    node [ id 12 ] \
    node [ id 13 ] \
    node [ id 14 ] \
    edge [ source 0 target 5 ] \
    edge [ source 5 target 1 ] \
    edge [ source 0 target 6 ] \
    edge [ source 6 target 2 ] \
    edge [ source 0 target 7 ] \
    edge [ source 7 target 3 ] \
    edge [ source 0 target 8 ] \
    edge [ source 8 target 4 ] \
    edge [ source 1 target 9 ] \
    edge [ source 9 target 2 ] \
    edge [ source 1 target 10 ] \
    edge [ source 10 target 3 ] \
    edge [ source 1 target 11 ] \
    edge [ source 11 target 4 ] \
    edge [ source 2 target 12 ] \
    edge [ source 12 target 3 ] \
    edge [ source 2 target 13 ] \
    edge [ source 13 target 4 ] \
    edge [ source 3 target 14 ] \
    edge [ source 14 target 4 ] \
    ]";
