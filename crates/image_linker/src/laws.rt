//! The laws of modules' images. Their functions do nothing: their contracts are the laws, which `specs/Laws.antt` states.
ghost use Rattle.image_linker.specs.Laws.{ImagesAreShort, ImagesBehaveAlike, ImagesKeepBounds, TrapsAreTold};

/// A module and its image behave alike: each call of an exported function ends in the image as it does in the module, within
/// 128 steps for each weight and 64 more; nothing else ends; and neither meets a case without a rule or a step.
pub fn images_behave_alike()
    ensures { ImagesBehaveAlike }
{}

/// A module's image keeps the bounds of images.
pub fn images_keep_bounds()
    ensures { ImagesKeepBounds }
{}

/// A module's image has few enough bytes to be written.
pub fn images_are_short()
    ensures { ImagesAreShort }
{}

/// The trap sites that a module's image has are those of all ECALLs of its text that ask for a trap, in order.
pub fn traps_are_told()
    ensures { TrapsAreTold }
{}
