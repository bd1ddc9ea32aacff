// What a line is printed from: the sums before it, and the places that it is worked on in.
ghost use Rattle.std.specs.Prelude.{◌≡◌, true, ◌≤◌, ◌<◌, length};
ghost use Rattle.report_lines.specs.Steps.{sound_totals};

use crate::Totals;

// The sums over lines behind which another one is read. Its text's places are no part of it: tried, and of a part of a slice that a struct holds the check
// does not know what it ends as.
#[derive(Clone, Copy)]
pub(crate) struct Ongoing {
    pub(crate) totals: Totals,
    ghost sound: { sound_totals totals ≡ true },
    ghost before_last: { totals.lines < 65535 },
}

// Places for the words of a line's tree, and for the chain's work; what is left in them is free.
#[derive(Drop)]
pub(crate) struct Scratch<'a> {
    pub(crate) words: &'a mut [u64],
    pub(crate) work: &'a mut [u64],
    ghost words_room: { 1024 ≤ length words.now },
    ghost work_room: { 4096 ≤ length work.now },
}

// The bytes of a line that goes on in the next chunk.
#[derive(Drop)]
pub(crate) struct Kept<'a> {
    pub(crate) line: &'a mut [u8],
    pub(crate) have: usize,
    ghost within: { have ≤ length line.now },
    ghost line_room: { length line.now ≡ 9219 },
}
