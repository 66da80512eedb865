// What a word comes to under two kinds at once.

// The values under the first kind and under the second.
#[derive(Clone, Copy)]
pub struct Pair<V, W> {
    pub first: V,
    pub second: W,
}
