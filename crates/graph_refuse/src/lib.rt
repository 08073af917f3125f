// Which counts, lengths, entries, nodes, parents and opening counts of a graph file are refused: the tests behind answers 2 to
// 5, 9 and 15.
#![tactic(auto)]

ghost use Rattle.std.specs.Prelude.{◌≡◌, get_or};
ghost use Rattle.graph_tables.specs.Named.{number_of};
ghost use Rattle.graph_refuse.specs.Bad.{fewest, most, count_bad, length_bad, entry_bad, out_of_range, unused_set, node_bad, parent_bad, opening_bad};

use graph_tables::{Graph, Kind, Tables};

const FEWEST: [u16; 6] = [1, 1, 0, 0, 0, 1];

const MOST: [u16; 6] = [64, 512, 1024, 512, 512, 6];

// The limit of table i, of which there are six.
fn limit(limits: &[u16; 6], i: u16) -> u16
    ensures { result ≡ get_or limits.now i 0 }
{
    limits.get(i as usize).copied().unwrap_or(0)
}

pub fn count_bad(f: &[u8], i: u16) -> bool
    ensures { result ≡ count_bad f.now i }
{
    let n = graph_trailer::trailer_word(f, i);
    (n < limit(&FEWEST, i)) | (limit(&MOST, i) < n)
}

pub fn length_bad(g: &Graph) -> bool
    ensures { result ≡ length_bad g.now.file.now g.now.tables }
{
    let sum = g.tables.end as usize;
    let distance = graph_trailer::trailer_word(g.file, 6) as usize;
    (distance != sum) | (g.file.len() != distance + 14)
}

pub fn entry_bad(g: &Graph, m: u16) -> bool
    ensures { result ≡ entry_bad g.now.file.now g.now.tables m }
{
    let entry = g.entry(m);
    let method = g.node_method(entry);
    (g.tables.nodes <= entry) | (method != m)
}

fn out_of_range(t: Tables, method: u16, kind: Kind, number: u16, count: u16) -> bool
    ensures { result ≡ out_of_range t method (number_of kind) number count }
{
    if t.methods <= method {
        return true;
    }
    match kind {
        Kind::Grant | Kind::Draw => t.types <= number,
        Kind::Throw => 7 < number,
        Kind::Call => count == 0,
        Kind::Plain | Kind::Return => false,
    }
}

fn unused_set(kind: Kind, number: u16, count: u16, rights: u16) -> bool
    ensures { result ≡ unused_set (number_of kind) number count rights }
{
    match kind {
        Kind::Plain | Kind::Return => (number != 0) | (count != 0) | (rights != 0),
        Kind::Grant => false,
        Kind::Draw => count != 0,
        Kind::Call => (number != 0) | (rights != 0),
        Kind::Throw => (count != 0) | (rights != 0),
    }
}

pub fn node_bad(g: &Graph, n: u16) -> bool
    ensures { result ≡ node_bad g.now.file.now g.now.tables n }
{
    let Some(kind) = g.kind_at(n) else {
        return true;
    };
    let method = g.node_method(n);
    let number = g.node_number(n);
    let count = g.node_count(n);
    let rights = g.node_rights(n);
    out_of_range(g.tables, method, kind, number, count) | unused_set(kind, number, count, rights)
}

pub fn parent_bad(g: &Graph, e: u16) -> bool
    ensures { result ≡ parent_bad g.now.file.now g.now.tables e }
{
    let parent = g.parent(e);
    (e <= parent) & (parent != 255)
}

pub fn opening_bad(g: &Graph, k: u16) -> bool
    ensures { result ≡ opening_bad g.now.file.now g.now.tables k }
{
    255 < g.opening_count(k)
}
