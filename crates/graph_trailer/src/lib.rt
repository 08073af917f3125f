// The trailer of a graph file, and the tables that it says.
#![tactic(auto)]

ghost use Rattle.std.specs.Prelude.{◌≡◌, ◌<◌};
ghost use Rattle.graph_tables.specs.Trailer.{trailer_at, trailer, tables_of};

use graph_tables::Tables;

// Where the trailer starts.
#[tactic(auto, unfolding(graph_tables::specs::Trailer::trailer_at))]
fn trailer_at(f: &[u8]) -> usize
    ensures { (result ≡ trailer_at f.now) × (result < 18446744073709551602) }
{
    f.len().saturating_sub(14)
}

// The trailer's word i. It has seven; past them lies the end of the file.
#[tactic(auto, using(graph_tables::proofs::Counts::trailer_past), unfolding(graph_tables::specs::Trailer::trailer))]
pub fn trailer_word(f: &[u8], i: u16) -> u16
    ensures { result ≡ trailer f.now i }
{
    if i < 7 {
        words::word(f, trailer_at(f) + 2 * (i as usize)) as u16
    } else {
        0
    }
}

// The tables of a file, read once.
#[tactic(auto, unfolding(graph_tables::specs::Trailer::tables_of))]
pub fn read(f: &[u8]) -> Tables
    ensures { result ≡ tables_of f.now }
{
    let methods = trailer_word(f, 0);
    let nodes = trailer_word(f, 1);
    let flows = trailer_word(f, 2);
    let calls = trailer_word(f, 3);
    let catches = trailer_word(f, 4);
    let types = trailer_word(f, 5);
    let nodesat = 2 * (methods as u32);
    let flowsat = nodesat + 8 * (nodes as u32);
    let callsat = flowsat + 4 * (flows as u32);
    let parentsat = callsat + 4 * (calls as u32);
    let catchesat = parentsat + 8;
    let openingat = catchesat + 6 * (catches as u32);
    let end = openingat + 4 * (types as u32);
    Tables {
        methods,
        nodes,
        flows,
        calls,
        catches,
        types,
        nodesat,
        flowsat,
        callsat,
        parentsat,
        catchesat,
        openingat,
        end,
    }
}
