// The operations that the terminal's loader calls; snellair_c hands them to C.
#![tactic(auto)]

ghost use Rattle.std.specs.Prelude.{◌≡◌};
ghost use Rattle.answer.specs.Number.{packed_of};
ghost use Rattle.accept.specs.Check.{check_of};
ghost use Rattle.snellair.specs.Reply.{Checked, CheckedMany, WorkedOut, WorkedQueued, OneShot, Session, ListedOut};

// Work out: the graph file is only read, the sheet is written after the verdicts 0 and 13.
pub fn snellair_work_out(f: &[u8], s: &mut [u8]) -> u64
    ensures { WorkedOut f.now s.old s.new result }
{
    answer::packed(work::work_out(f, s))
}

// Work out by the queue engine: the same sheet, and the area holds zeros after the verdicts.
pub fn snellair_work_out_queued(f: &[u8], s: &mut [u8], area: &mut [u8]) -> u64
    ensures { WorkedQueued f.now s.old s.new area.old area.new result }
{
    answer::packed(work_queued::work_out_queued(f, s, area))
}

// Check: both are only read.
pub fn snellair_check(f: &[u8], s: &[u8]) -> u64
    ensures equals { result ≡ packed_of (check_of f.now s.now) }
    ensures means { Checked f.now s.now result }
{
    answer::packed(accept::check(f, s))
}

// Check of many sheets: the graph file and the sheets are only read, the row is written after the answer 0.
pub fn snellair_check_many(f: &[u8], sheets: &[u8], row: &mut [u32]) -> u64
    ensures { CheckedMany f.now sheets.now row.old row.new result }
{
    answer::packed(accept::check_many(f, sheets, row))
}

// One-shot: the profile of add-ons that ask right before each use.
pub fn snellair_one_shot(f: &[u8]) -> u64
    ensures { OneShot f.now result }
{
    answer::packed(profile::one_shot(f))
}

// Session: the profile of add-ons that ask at start-up.
pub fn snellair_session(f: &[u8]) -> u64
    ensures { Session f.now result }
{
    answer::packed(profile::session(f))
}

// The listing: the file is worked out in the sheet, and the output is the text of the listing and 0 behind it.
pub fn snellair_listing(f: &[u8], s: &mut [u8], out: &mut [u8]) -> u64
    ensures { ListedOut f.now s.old s.new out.old out.new result }
{
    let reply = listing::list(f, s, out);
    let a = reply.answer;
    answer::packed(a)
}
