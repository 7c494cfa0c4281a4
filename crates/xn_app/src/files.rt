// Reading the files of a command.
ghost use Rattle.std.specs.Prelude.{◌≡◌, ◌≤◌, Ok, Some, IfOk, IfErr, IfSome, length};
ghost use Rattle.std.specs.String.{string_bytes};
ghost use Rattle.xn_gml.specs.Meaning.{graph_of_text};
ghost use Rattle.xn_gml.specs.ReadView.{found_in};
ghost use Rattle.xn_io.specs.Input.{AreAllOf, bytes_of};
ghost use Rattle.xn_app.specs.Status.{IsEarly};
ghost use Rattle.xn_app.specs.Files.{AreRead, EndsReading, IsFine, IsOneBegun, Shows, StopsReading};

use crate::status::Status;
use std::alloc::Global;
use xn_gml::{Read, read_graph};
use xn_io::{Input, read_all};

// The most bytes of a file.
const MAX_BYTES: u64 = 1 << 62;

/// All the bytes of a file, or the end of the run without them.
pub fn read_file<I: Input>(alloc: Global, input: &mut I, name: String) -> Result<Vec<u8>, Status>
    ensures all { IfOk result (λ text. AreAllOf (I.told input.old) (string_bytes name) text.items) }
    ensures fine { IfOk result (λ text. IsFine (I.failed input.new) (I.got input.new)) }
    ensures ends { IfErr result EndsReading }
    ensures shows { IfErr result (Shows (I.told input.old) (I.name input.new) (I.faults input.old) (I.faults input.new)
        (I.failed input.new) (I.got input.new)) }
    ensures name { I.name input.new ≡ Some (string_bytes name) }
    ensures told { I.told input.new ≡ I.told input.old }
    ensures later { I.faults input.old ≤ I.faults input.new }
{
    Ok(read_all(alloc, input, name, MAX_BYTES)?)
}

/// The graph of a file, or the end of the run without it.
pub fn read_one<I: Input>(alloc: Global, input: &mut I, graph: String) -> Result<Read, Status>
    ensures read { IfOk result (λ read. IfSome (I.told input.old)
        (λ files. graph_of_text (bytes_of files (string_bytes graph)) ≡ Ok (found_in read))) }
    ensures fine { IfOk result (λ read. IsFine (I.failed input.new) (I.got input.new)) }
    ensures early { IfErr result IsEarly }
    ensures stops { IfErr result (StopsReading (I.told input.old) (string_bytes graph)) }
    ensures shows { IfErr result (Shows (I.told input.old) (I.name input.new) (I.faults input.old) (I.faults input.new)
        (I.failed input.new) (I.got input.new)) }
    ensures name { I.name input.new ≡ Some (string_bytes graph) }
{
    let text = read_file(alloc, input, graph)?;
    Ok(read_graph(alloc, &text)?)
}

/// The graph of one file, and all the bytes of another, which is read only where there is a graph; or the end of
/// the run without them.
pub fn read_both<I: Input>(
    alloc: Global,
    input: &mut I,
    graph: String,
    answer: String,
) -> Result<(Read, Vec<u8>), Status>
    ensures read { IfOk result (λ x. IfSome (I.told input.old)
        (λ files. AreRead files (string_bytes graph) (string_bytes answer) (found_in x.0) x.1.items)) }
    ensures ids { IfOk result (λ x. length x.0.ids.entries ≡ x.0.graph.nodes) }
    ensures fine { IfOk result (λ x. IsFine (I.failed input.new) (I.got input.new)) }
    ensures early { IfErr result IsEarly }
    ensures stops { IfErr result (StopsReading (I.told input.old) (string_bytes graph)) }
    ensures shows { IfErr result (Shows (I.told input.old) (I.name input.new) (I.faults input.old) (I.faults input.new)
        (I.failed input.new) (I.got input.new)) }
    ensures begun { IsOneBegun (I.told input.old) (I.name input.new) (string_bytes graph) (string_bytes answer) }
    ensures last { IfOk result (λ x. I.name input.new ≡ Some (string_bytes answer)) }
{
    let read = {
        let graph_text = read_file(alloc, input, graph)?;
        read_graph(alloc, &graph_text)?
    };
    let text = read_file(alloc, input, answer)?;
    Ok((read, text))
}
