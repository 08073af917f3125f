// What comes back: one case for each number, with its place, where it names one its type, and where its place is a node that node's line.
#![tactic(auto)]

ghost use Rattle.std.specs.Prelude.{◌≡◌, ◌<◌};
ghost use Rattle.answer.specs.Number.{number_of, type_of, place_of, line_of, packed_of};

#[derive(Clone, Copy, PartialEq, Eq)]
pub enum Answer {
    Pass,
    TooShort,
    BadCount(u16),
    BadLength,
    BadEntry(u16),
    BadNode(u16, u16),
    BadFlow(u16),
    BadCall(u16),
    BadCatch(u16),
    BadOpening(u16),
    BadSheet,
    BadBlock(u16),
    Broken(u16, u16),
    Overdrawn(u16, u16, u16),
    Unfit(u16, u16),
    BadParent(u16),
    NoCallRow(u16, u16),
    BadArea,
    BadRow,
    OutputShort,
}

pub fn number(a: Answer) -> u16
    ensures { result ≡ number_of a }
{
    match a {
        Answer::Pass => 0,
        Answer::TooShort => 1,
        Answer::BadCount(_) => 2,
        Answer::BadLength => 3,
        Answer::BadEntry(_) => 4,
        Answer::BadNode(..) => 5,
        Answer::BadFlow(_) => 6,
        Answer::BadCall(_) => 7,
        Answer::BadCatch(_) => 8,
        Answer::BadOpening(_) => 9,
        Answer::BadSheet => 10,
        Answer::BadBlock(_) => 11,
        Answer::Broken(..) => 12,
        Answer::Overdrawn(..) => 13,
        Answer::Unfit(..) => 14,
        Answer::BadParent(_) => 15,
        Answer::NoCallRow(..) => 17,
        Answer::BadArea => 23,
        Answer::BadRow => 24,
        Answer::OutputShort => 26,
    }
}

// The resource type that the answer names, 0 where it names none.
pub fn type_of(a: Answer) -> u16
    ensures { result ≡ type_of a }
{
    match a {
        Answer::Broken(_, k) | Answer::Overdrawn(_, k, _) => k,
        _ => 0,
    }
}

fn place_of(a: Answer) -> u16
    ensures { result ≡ place_of a }
{
    match a {
        Answer::BadCount(p)
        | Answer::BadEntry(p)
        | Answer::BadNode(p, _)
        | Answer::BadFlow(p)
        | Answer::BadCall(p)
        | Answer::BadCatch(p)
        | Answer::BadOpening(p)
        | Answer::BadBlock(p)
        | Answer::Broken(p, _)
        | Answer::Overdrawn(p, _, _)
        | Answer::Unfit(p, _)
        | Answer::BadParent(p)
        | Answer::NoCallRow(p, _) => p,
        _ => 0,
    }
}

pub fn place(a: Answer) -> u32
    ensures { (result ≡ place_of a) × (result < 65536) }
{
    place_of(a) as u32
}

// The source line of the node that is the place, 0 where it has none or the place is no node.
pub fn line(a: Answer) -> u16
    ensures { result ≡ line_of a }
{
    match a {
        Answer::BadNode(_, l)
        | Answer::Overdrawn(_, _, l)
        | Answer::Unfit(_, l)
        | Answer::NoCallRow(_, l) => l,
        _ => 0,
    }
}

// The answer in one number, as the C face gives it: powers of two by hand, as its header has them.
pub fn packed(a: Answer) -> u64
    ensures { result ≡ packed_of a }
{
    number(a) as u64
        + 256 * (type_of(a) as u64)
        + 65536 * (place(a) as u64)
        + 1099511627776 * (line(a) as u64)
}
