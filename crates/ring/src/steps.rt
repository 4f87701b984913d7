// The steps of a ring, on a slice of slots and plain numbers, which carry no facts of their own.
ghost use Rattle.std.specs.Prelude.{◌≡◌, ℕ, ◌<◌, ◌≤◌, ◌++◌, length, slice_index_or, slice_set};
ghost use Rattle.lists.specs.Rings.{Place, turned};
ghost use Rattle.ring.specs.Slots.{Lies};
ghost use Rattle.ring.specs.Steps.{Before, Behind, Popped, Read, Replaced};
ghost use Rattle.store.specs.Sizes.{chunk_limit};

use crate::Blanks;

// The slot `i` places on from `head`, around the end of `limit` slots.
fn place(limit: usize, head: usize, i: usize) -> usize
    requires few { limit ≤ chunk_limit }
    requires from { head < limit }
    requires within { i ≤ limit }
    ensures { Place limit head i result }
{
    let k = head + i;
    if k < limit { k } else { k - limit }
}

// The element that lies `i` places on from `head`.
pub(super) fn nth<T>(slots: &[T], head: usize, i: usize) -> &T
    requires few { length slots.now ≤ chunk_limit }
    requires from { head < length slots.now }
    requires within { i < length slots.now }
    ensures { Read slots.now head i result.now }
{
    let k = place(slots.len(), head, i);
    &slots[k]
}

// The `len` elements from `head` on, in two parts: those up to the end of the slots, and those around it.
pub(super) fn parts<T>(slots: &[T], head: usize, len: usize) -> (&[T], &[T])
    requires { Lies slots.now head len }
    ensures { result.0.now ++ result.1.now ≡ turned slots.now head len }
{
    let (around, front) = slots.split_at(head);
    if len <= front.len() {
        (&front[..len], &[])
    } else {
        (front, &around[..len - front.len()])
    }
}

// Puts `x` in the slot `i` places on from `head`, and hands out what lay there.
pub(super) fn exchange<T>(slots: &mut [T], head: usize, i: usize, x: T) -> T
    requires few { length slots.old ≤ chunk_limit }
    requires from { head < length slots.old }
    requires within { i < length slots.old }
    ensures value { Read slots.old head i result }
    ensures after { Replaced slots.old head i x slots.new }
{
    let k = place(slots.len(), head, i);
    std::mem::replace(&mut slots[k], x)
}

// Writes `x` behind the last of `len` elements.
pub(super) fn put_back<T: Drop>(slots: &mut [T], head: usize, len: usize, x: T)
    requires lies { Lies slots.old head len }
    requires short { len < length slots.old }
    ensures { Behind slots.old head len x slots.new }
{
    let k = place(slots.len(), head, len);
    slots[k] = x;
}

// Writes `x` into the slot before `head`, and says which that is.
pub(super) fn put_front<T: Drop>(slots: &mut [T], head: usize, x: T) -> usize
    requires few { length slots.old ≤ chunk_limit }
    requires from { head < length slots.old }
    ensures { Before slots.old head x slots.new result }
{
    let limit = slots.len();
    let k = place(limit, head, limit - 1);
    slots[k] = x;
    k
}

// Takes the first element out of the slot `head`, leaves `blank` there, and says in which slot the next one lies.
pub(super) fn take_front<T>(slots: &mut [T], head: usize, blank: T) -> (T, usize)
    requires few { length slots.old ≤ chunk_limit }
    requires from { head < length slots.old }
    ensures popped { Popped slots.old head result.0 slots.new result.1 }
    ensures slot { slots.new ≡ slice_set slots.old head blank }
{
    let next = place(slots.len(), head, 1);
    (std::mem::replace(&mut slots[head], blank), next)
}

// Writes a blank into each slot.
pub(super) fn blank_all<T: Drop, B: Blanks<T>>(slots: &mut [T])
    ensures { (k : ℕ) (d : T) → k < length slots.new → B.Blanks.empty (slice_index_or slots.new k d) }
{
    for slot in slots.iter_mut() {
        *slot = B::blank();
    }
}
