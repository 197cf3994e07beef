// What is compared: the first levels of a tier.

// The first so many levels of a tier, all of them where there are fewer.
#[derive(Clone, Copy)]
pub struct Layout<'a, T> {
    pub tier: &'a T,
    pub levels: u32,
}
