//! What a module that was validated or compiled is.
use image_format::Image;

/// A module that was compiled.
#[derive(Drop)]
pub struct Built {
    /// The module's one image.
    pub image: Image,
    /// How many functions the module declares, imported ones not counted.
    pub functions: u64,
    /// The bytes of the module.
    pub bytes: u64,
}

/// A module that was validated.
#[derive(Drop)]
pub struct Checked {
    /// How many functions the module declares, imported ones not counted.
    pub functions: u64,
    /// The bytes of the module.
    pub bytes: u64,
}
