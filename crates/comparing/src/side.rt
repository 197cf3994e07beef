// One of the two layouts that are compared.

// A sheet, read or as bytes, and how many of its levels are compared; all of them where there are fewer.
#[derive(Clone, Copy)]
pub struct Side<S> {
    pub sheet: S,
    pub levels: u32,
}

// The bytes of the images that both sheets list; one image leaves the second ones aside.
#[derive(Clone, Copy)]
pub struct ImagePair<'a> {
    pub first: &'a [u8],
    pub second: &'a [u8],
}
