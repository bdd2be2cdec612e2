// One pass over the rows of a list, compiled for each of the five with its constants.
ghost use Rattle.std.specs.Prelude.{◌≡◌};
ghost use Rattle.lists.specs.Questions.{list_says};

use crate::rows::{Answers, List};
use text::{begins_with, next_row, word};

// What some row with the key says. A row is read behind its key only if the key is the one asked for, and the pass ends where every answer
// is found.
pub fn list_says<L: List>(list: &[u8], key: &[u8], day: u32) -> Answers
    ensures { result ≡ list_says L.mark list.now key.now day }
{
    let mut found = Answers::NONE;
    if key.len() != L::KEY {
        return found;
    }
    let width = L::WIDTH;
    let place = L::PLACE;
    let size = L::SIZE;
    let asked = word(key, place, size);
    let mut at = 9;
    // No `for`: the place goes on to the next row that has the word, four rows a turn (3,120 instructions a line fewer than row by row).
    while at + width <= list.len() {
        let end = at + width;
        let row = &list[at..end];
        if begins_with(row, key) {
            found = found.joined(L::says(row, day));
            if found.complete() {
                return found;
            }
        }
        at = next_row(list, end, width, place, size, asked);
    }
    found
}
