// The files of an image.

/// A file of an image. It is unreadable where it has no content.
#[derive(Drop)]
pub struct ImageFile {
    pub path: String,
    pub content: Option<Vec<u8>>,
}
