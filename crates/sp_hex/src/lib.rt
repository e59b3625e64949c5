//! Intel HEX, both ways: an image as a text of records, and the image that such a text stands for; and an image
//! loaded into a machine.
#![tactic(auto)]

mod laws;
mod loading;
mod reading;
mod record;
mod refusal;
mod writing;

pub use laws::{
    digits_have_values, one_answer, one_loading, small_texts_have_causes, small_texts_have_images,
    written_form, written_text,
};
pub use loading::load;
pub use reading::read;
pub use refusal::{HexKind, HexRefusal};
pub use writing::{two_digits, write};
