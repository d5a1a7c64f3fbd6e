/// A file of a walk: its name and its bytes, which the caller keeps.
#[derive(Clone, Copy, Debug)]
pub struct Source<'f> {
    pub name: &'f [u8],
    pub bytes: &'f [u8],
}
