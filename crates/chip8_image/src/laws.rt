//! What is proved of the map, each law the contract of a function without parameters.

ghost use Rattle.chip8_image.specs.Parts.{MapInOrder};

/// The areas are in the order of their addresses, and no address lies in two of them.
pub fn map_in_order()
    ensures { MapInOrder }
{}
