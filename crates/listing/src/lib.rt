// The listing of a graph file, worked out and written as text into a lent output.
#![tactic(auto)]

ghost use Rattle.std.specs.Prelude.{◌≡◌, ◌≤◌, length};
ghost use Rattle.graph.specs.Judgement.{judged_of};
ghost use Rattle.sheet_layout.specs.Layout.{Within};
ghost use Rattle.listing.specs.Lists.{text_of, padded, Lists};

use answer::Answer;
use graph::Judgement;
use graph_tables::Graph;
use words_digits::Text;

// No listing has more than 46,102 bytes, and a 0 stands behind it.
pub const ROOM: usize = 46103;

// The answer, and how much of the lent output the text takes, as `Read::read` says it.
#[derive(Clone, Copy)]
pub struct Reply {
    pub answer: Answer,
    pub length: usize,
}

// The listing of the answer a and the sheet s, and 0 behind it; what comes back is its length.
fn tell(f: &[u8], j: Judgement, s: &[u8], a: Answer, out: &mut [u8]) -> usize
    requires { (j ≡ judged_of f.now) × Within j.shape × (length (text_of f.now a s.now) ≤ length out.old) }
    ensures { (out.new ≡ padded (text_of f.now a s.now) (length out.old)) × (result ≡ length (text_of f.now a s.now)) }
{
    let g = Graph {
        file: f,
        tables: j.tables,
    };
    sheet::blank(out);
    let mut text = Text { out, end: 0 };
    listing_text::put_listing(&mut text, a, &g, j.shape, s);
    text.end
}

// The listing of a file that has been judged, so that whoever lends the sheet judges it once.
pub fn of_judged(f: &[u8], j: Judgement, s: &mut [u8], out: &mut [u8]) -> Reply
    requires { (j ≡ judged_of f.now) × Within j.shape × (46103 ≤ length out.old) }
    ensures { Lists f.now s.old s.new out.old out.new result.answer result.length }
{
    let mut area = [0u8; 4096];
    let a = work_queued::of_judged(f, j, s, &mut area);
    let n = tell(f, j, s, a, out);
    Reply {
        answer: a,
        length: n,
    }
}

// The file f is worked out in the sheet s, and the listing of what was found is written. An output that is shorter than `ROOM`
// is refused before all else.
pub fn list(f: &[u8], s: &mut [u8], out: &mut [u8]) -> Reply
    ensures { Lists f.now s.old s.new out.old out.new result.answer result.length }
{
    if out.len() < ROOM {
        return Reply {
            answer: Answer::OutputShort,
            length: 0,
        };
    }
    let j = graph::judged(f);
    of_judged(f, j, s, out)
}
