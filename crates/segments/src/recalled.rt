// The segments that rows in memory tell of: whether the parts that a row names lie within the memory.
ghost use Rattle.std.specs.Prelude.{◌≡◌, ◌+◌, leb};

use lent::part::Part;

// Whether a part lies within n elements. No sum is taken, so that none can wrap.
pub fn lies_within(p: Part, n: usize) -> bool
    ensures { result ≡ leb (p.at + p.len) n }
{
    p.at <= n && p.len <= n - p.at
}
