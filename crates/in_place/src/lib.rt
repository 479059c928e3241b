// The two in-place forms of the tree map: take and free change the caller's map through a lent
// reference, as the original has it. Each calls the core by value and stores its map; a refused call
// leaves in the caller's map what it held. Rests on `tree`.
#![tactic(auto)]

ghost use Rattle.tree.specs.Says.{TakeSays, FreeSays};
ghost use Rattle.in_place.specs.Says.{TakeInPlaceSays, FreeInPlaceSays};

use answers::{Changed, Refusal, Reply};
use tree::Tree;

// Takes n slots at the lowest free start that is a multiple of 2^a, and answers that start. Refused
// as `Tree::take` is, with 1, 2, 3, 4 or 7; then the caller's map holds what it held.
pub fn take(map: &mut Tree, n: usize, a: usize) -> Result<Reply, Refusal>
    ensures { TakeInPlaceSays map.old n a result map.new }
{
    let taken = map.take(n, a);
    *map = taken.map;
    taken.answer
}

// Frees the n slots from `start` on, each of which must be used. Refused as `Tree::free` is, with
// 1, 2, 4 or 5; then the caller's map holds what it held.
pub fn free(map: &mut Tree, start: usize, n: usize) -> Result<Reply, Refusal>
    ensures { FreeInPlaceSays map.old start n result map.new }
{
    let freed = map.free(start, n);
    *map = freed.map;
    freed.answer
}

// ---- by value: each lends its own copy, so that a caller need not lend one. Two, here and above, and no
// generic one: they are promised, and each is three lines.

// Takes in a copy of the map, in place, and hands the copy back. Refused as `Tree::take` is; then the
// copy is the very map.
pub fn take_in_copy(map: Tree, n: usize, a: usize) -> Changed<Refusal, Tree>
    ensures { TakeSays map n a result }
{
    let mut taken = map;
    let answer = take(&mut taken, n, a);
    Changed { answer, map: taken }
}

// Frees in a copy of the map, in place, and hands the copy back. Refused as `Tree::free` is; then the
// copy is the very map.
pub fn free_in_copy(map: Tree, start: usize, n: usize) -> Changed<Refusal, Tree>
    ensures { FreeSays map start n result }
{
    let mut freed = map;
    let answer = free(&mut freed, start, n);
    Changed { answer, map: freed }
}
