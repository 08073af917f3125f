// The listing: the first line, and the lines of the nodes that are reached.
#![tactic(auto)]

ghost use Rattle.std.specs.Prelude.{◌+◌, ◌≤◌, length};
ghost use Rattle.words_digits.specs.Text.{joined};
ghost use Rattle.words_digits.specs.Writes.{Writes};
ghost use Rattle.sheet_layout.specs.Layout.{Within};
ghost use Rattle.listing_first.specs.Listing.{node_lines, listing_of};

use answer::Answer;
use graph_tables::Graph;
use sheet_layout::Shape;
use words_digits::Text;

// The lines of node n, if it is reached.
fn put_node(text: &mut Text, g: &Graph, x: Shape, s: &[u8], n: u16)
    requires { Within x × (text.old.end + length (node_lines g.now.file.now g.now.tables x s.now n) ≤ length text.old.out.now) }
    ensures { Writes text.old (node_lines g.now.file.now g.now.tables x s.now n) text.new }
{
    if reach::reached(g, x, s, n) {
        let held = reach::stock(g, x, s, n);
        listing_lines::put_stock(text, n, x.types, held);
    }
}

fn put_nodes(text: &mut Text, g: &Graph, x: Shape, s: &[u8])
    requires { Within x × (text.old.end + length (joined (node_lines g.now.file.now g.now.tables x s.now) x.nodes) ≤ length text.old.out.now) }
    ensures { Writes text.old (joined (node_lines g.now.file.now g.now.tables x s.now) x.nodes) text.new }
{
    for n in 0..x.nodes {
        put_node(text, g, x, s, n);
    }
}

// The listing of the answer a and the sheet s of the file f.
pub fn put_listing(text: &mut Text, a: Answer, g: &Graph, x: Shape, s: &[u8])
    requires { Within x × (text.old.end + length (listing_of a g.now.file.now g.now.tables x s.now) ≤ length text.old.out.now) }
    ensures { Writes text.old (listing_of a g.now.file.now g.now.tables x s.now) text.new }
{
    listing_first::put_first(text, a);
    match a {
        Answer::Pass | Answer::Overdrawn(..) => put_nodes(text, g, x, s),
        _ => {}
    }
}
