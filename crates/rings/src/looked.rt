// How many pairs of edges were looked at. Every later edge counts, also where the box of its run spoke for it, so the count follows from the pair alone and the search
// need not keep one.
ghost use Rattle.std.specs.Prelude.{◌≡◌, ◌<◌, ◌≤◌, length};
ghost use Rattle.rules.specs.Rings.{edge_pairs, place};

// All pairs of so many edges.
pub fn pairs_of(edges: usize) -> usize
    requires { (0 < edges) × (edges ≤ 1024) }
    ensures { result ≡ length (edge_pairs edges) }
{
    edges * (edges - 1) / 2
}

// The place of the pair k, l among all pairs of so many edges: those of the edges before k, and of edge k as far as l.
pub fn place_of(k: usize, l: usize, edges: usize) -> usize
    requires { (k < l) × (l < edges) × (edges ≤ 1024) }
    ensures { result ≡ place (record { low = k; high = l }) (edge_pairs edges) }
{
    pairs_of(edges) - pairs_of(edges - k) + (l - k)
}
