// The lent row of the check of many sheets: of how many sheets it tells, and what is put into it for each.
#![tactic(auto)]

ghost use Rattle.std.specs.Prelude.{◌≡◌, ℕ, ◌+◌, ◌*◌, ◌≤◌, ◌<◌, length, set};
ghost use Rattle.answer.specs.Number.{number_of, place_of};
ghost use Rattle.sheet_layout.specs.Layout.{Within, sheet_bytes};
ghost use Rattle.accept_row.specs.Counts.{Counts};

use answer::Answer;
use sheet_layout::Shape;

// How many sheets so many bytes are, where the row has two numbers for each; None where they are not 1 to 20 whole ones.
pub fn count_of(x: Shape, bytes: usize, numbers: usize) -> Option<usize>
    requires { Within x }
    ensures some { (k : ℕ) → result ≡ Some k → Counts (sheet_bytes x) bytes numbers k }
    ensures none { result ≡ None → (k : ℕ) → Counts (sheet_bytes x) bytes numbers k → ⊥ }
{
    let count = numbers / 2;
    if count == 0 {
        return None;
    }
    if 20 < count {
        return None;
    }
    if numbers != 2 * count {
        return None;
    }
    if bytes != count * sheet_layout::sheet_bytes(x) {
        return None;
    }
    Some(count)
}

// What was answered for sheet i is put into the row: its number, and behind it its place.
pub fn put_answer(row: &mut [u32], i: usize, a: Answer)
    requires { 2 * i + 2 ≤ length row.old }
    ensures { row.new ≡ set (set row.old (2 * i) (number_of a)) (2 * i + 1) (place_of a) }
{
    let number = 2 * i;
    let place = number + 1;
    row[number] = answer::number(a) as u32;
    row[place] = answer::place(a);
}
