// The list of groups, after `Vec<Group>` of the Rust's encoder: "a lent list of groups, four numbers each", thin over the
// number slices that grouping leaves.
#![tactic(auto)]

ghost use Rattle.std.specs.Prelude.{◌≡◌, length, get_or};
ghost use Rattle.group_list.specs.Listing.{no_group, fitting_of, filling, filled};

use format::Group;

// How many groups a lent list has room for.
pub fn room(list: &[Group]) -> usize
    ensures { result ≡ length list.now }
{
    list.len()
}

// What is read behind the last group. `no_group` of specs/Listing.antt is the same.
const NO_GROUP: Group = Group {
    start: 0,
    length: 0,
    least: 0,
    width: 0,
};

// Group k of a list; behind its last there is none.
pub fn group_at(list: &[Group], k: usize) -> Group
    ensures { result ≡ get_or list.now k no_group }
{
    list.get(k).copied().unwrap_or(NO_GROUP)
}

// How many of `count` groups go into a list with room for so many, out of so many numbers: filling has no test for it.
fn fitting(count: usize, room: usize, have: usize) -> usize
    ensures { result ≡ fitting_of count room have }
{
    count.min(room).min(have / format::NUMBERS_PER_GROUP)
}

// As many of the first `count` groups as fit, which is the answer; "places past the answer are unchanged". The count is said beside
// the numbers, as grouping leaves them: behind so many groups the lent numbers are none of a group.
pub fn fill_list(list: &mut [Group], numbers: &[u32], count: usize) -> usize
    ensures { filling result list.new ≡ filled numbers.now count list.old }
{
    let (fours, _) = numbers.as_chunks::<{ format::NUMBERS_PER_GROUP }>();
    let fits = fitting(count, list.len(), numbers.len());
    for (k, place) in list[..fits].iter_mut().enumerate() {
        let [start, length, least, width] = fours[k];
        *place = Group {
            start,
            length,
            least,
            width,
        };
    }
    fits
}
