// The links of doubly linked lists: who stands behind a place, and who before it.
ghost use Rattle.std.specs.Prelude.{◌≡◌, ◌<◌, length, slice_index};
ghost use Rattle.rings.specs.Links.{out_links as outside, in_links as between};
ghost use Rattle.rings.specs.Places.{nexts, prevs};

// What stands behind a place, and what before it. A place is a plain index of the array: a type for it would be made of a slot or
// a ring, and taken apart again, at each use.
#[derive(Clone, Copy)]
pub struct Link {
    pub next: usize,
    pub prev: usize,
}

// The place behind a place.
#[tactic(auto, using(crate::proofs::Places::written))]
pub fn behind(links: &[Link; 32], x: usize) -> usize
    requires { x < 32 }
    ensures { result ≡ slice_index (nexts links.now) x }
{
    links[x].next
}

// Links the neighbours of `x` to one another, and `x` to itself.
#[tactic(auto, using(crate::proofs::Places::written))]
pub fn take_out(links: &mut [Link; 32], x: usize)
    requires { (x < 32) × ((slice_index (nexts links.old) x < 32) × (slice_index (prevs links.old) x < 32)) }
    ensures wide { length links.new ≡ 32 }
    ensures next { nexts links.new ≡ outside (nexts links.old) (prevs links.old) x }
    ensures prev { prevs links.new ≡ outside (prevs links.old) (nexts links.old) x }
{
    let Link { next, prev } = links[x];
    links[prev].next = next;
    links[next].prev = prev;
    links[x] = Link { next: x, prev: x };
}

// Links `x` in between two places.
#[tactic(auto, using(crate::proofs::Places::written))]
pub fn put_in(links: &mut [Link; 32], x: usize, before: usize, behind: usize)
    requires { (x < 32) × ((before < 32) × (behind < 32)) }
    ensures wide { length links.new ≡ 32 }
    ensures next { nexts links.new ≡ between (nexts links.old) before x behind }
    ensures prev { prevs links.new ≡ between (prevs links.old) behind x before }
{
    links[before].next = x;
    links[behind].prev = x;
    links[x] = Link {
        next: behind,
        prev: before,
    };
}
