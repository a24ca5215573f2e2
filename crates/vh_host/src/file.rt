/// A file that was read: its word, and its bytes.
#[derive(Drop)]
pub struct TextFile<'a> {
    pub word: &'a str,
    pub bytes: Vec<u8>,
}
