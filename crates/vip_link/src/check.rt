//! The comparison of both ROMs with their texts.

ghost use Rattle.vip_link.specs.Checked.{ComparesLink};

use crate::image::{receiver_image, sender_image};
use crate::receiver::receiver_text;
use crate::sender::sender_text;
use chip8_source::{ImageFault, compare};
use std::alloc::Global;

/// Compares the texts of SENDER and RECEIVER with their images, SENDER first.
///
/// # Errors
///
/// Those of `chip8_source::compare`, for the first of the two that has one.
pub fn check_link(alloc: Global) -> Result<(), ImageFault>
    ensures { ComparesLink result }
{
    compare(alloc, sender_text(), &sender_image())?;
    compare(alloc, receiver_text(), &receiver_image())
}
