/// What a command makes before anything is written.
#[derive(Drop)]
pub struct Product {
    /// The text of the image, empty for a command that writes none.
    pub image: Vec<u8>,
    /// The text that is put where all is done.
    pub report: Vec<u8>,
}
