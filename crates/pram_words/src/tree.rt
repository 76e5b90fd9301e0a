//! The tree of progress, kept as a heap: node 1 is the root, node n has the children 2n and 2n + 1,
//! and a tree of l leaves has the leaves l to 2l - 1.
ghost use Rattle.std.specs.Prelude.{◌≡◌, ◌+◌, ◌*◌, ◌/◌, ◌^◌, ◌<◌, ◌≤◌};
ghost use Rattle.std.specs.Int.{IsPowerOfTwo, IsNextPowerOfTwo};
ghost use Rattle.pram_words.specs.Tree.{leaves_of, depth_of, first_leaf_of, turns_right, IsTurn};
ghost use Rattle.pram_words.specs.Ways.{turns_right_wide, IsTurnWide};

/// How many leaves the tree of n processors has: the least power of two that is at least n.
pub fn leaves(n: u32) -> u32
    requires { n ≤ 2 ^ 31 }
    ensures value { result ≡ leaves_of n }
    ensures least { IsNextPowerOfTwo n result }
{
    n.next_power_of_two()
}

/// How far the leaves of a tree of l leaves lie below its root.
pub fn height(l: u32) -> u32
    requires { IsPowerOfTwo l }
    ensures power { l ≡ 2 ^ result }
    ensures value { result ≡ depth_of l }
    ensures bound { result < 32 }
{
    depth(l)
}

/// The left child of a node.
pub fn left(n: u32) -> u32
    requires { n < 2 ^ 31 }
    ensures { result ≡ 2 * n }
{
    2 * n
}

/// The right child of a node.
pub fn right(n: u32) -> u32
    requires { n < 2 ^ 31 }
    ensures { result ≡ 2 * n + 1 }
{
    left(n) + 1
}

/// The parent of a node other than the root.
pub fn parent(n: u32) -> u32
    ensures { result ≡ n / 2 }
{
    n / 2
}

/// The leaf where worker w begins. Workers are spread over the leaves in turn.
pub fn first_leaf(l: u32, w: u32) -> u32
    requires some { 1 ≤ l }
    requires fits { l ≤ 2 ^ 31 }
    ensures value { result ≡ first_leaf_of l w }
    ensures leaf { (l ≤ result) × (result < 2 * l) }
{
    l + w % l
}

/// Whether worker w goes to the right child of an inner node when both children are unfinished: at
/// depth d of a tree of height h, where the bit h - 1 - d of w mod l is 1.
pub fn goes_right(l: u32, w: u32, n: u32) -> bool
    requires tree { IsPowerOfTwo l }
    requires node { 1 ≤ n }
    requires inner { n < l }
    ensures value { result ≡ turns_right l w n }
    ensures turn { IsTurn l w n result }
{
    let bit = height(l) - 1 - depth(n);
    w >> bit & 1 == 1
}

// Whether a worker goes right in the wide form: at depth d, where of the bits 0 to d of its number
// an odd number are 1.
pub(crate) fn goes_right_wide(w: u32, n: u32) -> bool
    requires node { 1 ≤ n }
    requires most { n < 2 ^ 31 }
    ensures value { result ≡ turns_right_wide w n }
    ensures turn { IsTurnWide w n result }
{
    let next = 2 << depth(n);
    (w & (next - 1)).count_ones() % 2 == 1
}

// The depth of a node; the root has depth 0.
fn depth(n: u32) -> u32
    requires { 1 ≤ n }
    ensures value { result ≡ depth_of n }
    ensures power_le { 2 ^ result ≤ n }
    ensures next_power_gt { n < 2 * 2 ^ result }
    ensures bound { result < 32 }
{
    n.ilog2()
}
