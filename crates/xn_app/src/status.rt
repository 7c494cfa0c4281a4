// How the program ends.
ghost use Rattle.std.specs.Prelude.{◌≡◌, ◌≤◌, length};
ghost use Rattle.xn_app.specs.Outcome.{refused_graph};
ghost use Rattle.xn_app.specs.Status.{code_of, status_of_read};
ghost use Rattle.xn_app.specs.Texts.{graph_offset_of, graph_text_of, offset_of, text_of};
ghost use Rattle.xn_app.specs.declared.status.Status.TheVariants.{Memory};

use std::alloc::AllocError;
use xn_gml::GmlErr;
use xn_io::ReadErr;
use xn_kinds::Flaw;

/// A limit that the input passes.
#[derive(Clone, Copy, Debug, PartialEq, Eq)]
pub enum Limit {
    /// A file has more than 2^62 bytes.
    Bytes,
    /// The graph has more than 1,000 nodes.
    Nodes,
    /// The graph has more than 1,000 edges that are no loops.
    Edges,
}

/// How a run ends.
#[derive(Clone, Copy, Debug, PartialEq, Eq)]
pub enum Status {
    /// The command did what it is for.
    Done,
    /// The answer is refused, at this line and for this reason.
    Refused(Flaw),
    /// The words are no command.
    Words,
    /// The text of the graph's file has no graph, for this reason.
    Graph(GmlErr),
    /// The input passes a limit.
    Limit(Limit),
    /// The budget of a search is spent, and the bounds differ.
    Undecided {
        /// What the proof shows.
        lower: u32,
        /// The crossings of the drawing.
        upper: u32,
        /// How many tree nodes were opened.
        spent: u64,
    },
    /// A read failed.
    Read,
    /// A write failed.
    Write,
    /// Memory was wanting.
    Memory,
}

impl Status {
    /// The exit code of the program, from 0 to 8.
    pub fn code(&self) -> u8
        ensures { result ≡ code_of self.now }
    {
        match self {
            Status::Done => 0,
            Status::Refused(_) => 1,
            Status::Words => 2,
            Status::Graph(_) => 3,
            Status::Limit(_) => 4,
            Status::Undecided { .. } => 5,
            Status::Read => 6,
            Status::Write => 7,
            Status::Memory => 8,
        }
    }

    /// What is said of the end on standard error, but for an offset that follows it. It is empty where the end is
    /// told on standard output.
    pub fn text(&self) -> &'static str
        ensures is { result.now ≡ text_of self.now }
        ensures short { length result.now ≤ 50 }
    {
        match self {
            Status::Done | Status::Refused(_) | Status::Undecided { .. } => "",
            Status::Words => "xnum: the words are not a command of this program",
            Status::Graph(error) => graph_text(*error),
            Status::Limit(Limit::Nodes) => "xnum: more than 1000 nodes",
            Status::Limit(Limit::Edges) => "xnum: more than 1000 edges",
            Status::Limit(Limit::Bytes) => "xnum: too many bytes",
            Status::Read => "xnum: a read failed",
            Status::Write => "xnum: a write failed",
            Status::Memory => "xnum: no memory",
        }
    }

    /// The offset in the text of the graph's file at which it is refused, if there is one.
    pub fn offset(&self) -> Option<u64>
        ensures { result ≡ offset_of self.now }
    {
        match self {
            Status::Graph(error) => graph_offset(*error),
            _ => None,
        }
    }
}

// Why a text has no graph; where that has an offset, it follows.
fn graph_text(error: GmlErr) -> &'static str
    ensures is { result.now ≡ graph_text_of error }
    ensures short { length result.now ≤ 50 }
{
    match error {
        GmlErr::Syntax(_) => "xnum: graph text refused: syntax at ",
        GmlErr::Deep(_) => "xnum: graph text refused: deep at ",
        GmlErr::NoGraph => "xnum: graph text refused: no graph",
        GmlErr::SecondGraph(_) => "xnum: graph text refused: second graph at ",
        GmlErr::NoId(_) => "xnum: graph text refused: no id at ",
        GmlErr::Repeated(_) => "xnum: graph text refused: repeated at ",
        GmlErr::Unknown(_) => "xnum: graph text refused: unknown at ",
        GmlErr::Range(_) => "xnum: graph text refused: range at ",
        GmlErr::TooManyNodes => "xnum: more than 1000 nodes",
        GmlErr::TooManyEdges => "xnum: more than 1000 edges",
        GmlErr::Memory => "xnum: no memory",
    }
}

fn graph_offset(error: GmlErr) -> Option<u64>
    ensures { result ≡ graph_offset_of error }
{
    match error {
        GmlErr::Syntax(at)
        | GmlErr::Deep(at)
        | GmlErr::SecondGraph(at)
        | GmlErr::NoId(at)
        | GmlErr::Repeated(at)
        | GmlErr::Unknown(at)
        | GmlErr::Range(at) => Some(at),
        GmlErr::NoGraph | GmlErr::TooManyNodes | GmlErr::TooManyEdges | GmlErr::Memory => None,
    }
}

impl From<ReadErr> for Status {
    ghost from_gives = { λ e status. status ≡ status_of_read e };

    fn from(e: ReadErr) -> Status {
        match e {
            ReadErr::Fault => Status::Read,
            ReadErr::TooLong => Status::Limit(Limit::Bytes),
            ReadErr::Memory => Status::Memory,
        }
    }
}

impl From<GmlErr> for Status {
    ghost from_gives = { λ e status. status ≡ refused_graph e };

    fn from(e: GmlErr) -> Status {
        match e {
            GmlErr::TooManyNodes => Status::Limit(Limit::Nodes),
            GmlErr::TooManyEdges => Status::Limit(Limit::Edges),
            GmlErr::Memory => Status::Memory,
            _ => Status::Graph(e),
        }
    }
}

impl From<AllocError> for Status {
    ghost from_gives = { λ _ status. status ≡ Memory };

    fn from(_e: AllocError) -> Status {
        Status::Memory
    }
}
