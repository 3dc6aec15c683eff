// What a sample gives, as fields.
use image_fields::fields::Fields;

#[derive(Clone, Copy, Debug, PartialEq, Eq)]
pub struct Stepped {
    pub fields: Fields,
    // its number: as an `Answer` an event by itself on an image took up to 13 instructions more
    pub answer: u8,
    pub flag: bool,
}
