//! Laws of what is named in a map: each is the contract of a function that does nothing.

ghost use Rattle.mm_check.specs.Laws.{DifferencesTell, SoundIsImage};

use mm_image::laws::{contents_read_back, key_order};
use mm_label::laws::reads_back;

/// Two lists of entries are the same exactly where no first difference is told.
pub fn differences_tell()
    ensures { DifferencesTell }
{}

/// Nothing is named in a map exactly where it is the image of a well-formed forest.
pub fn sound_is_image()
    ensures { SoundIsImage }
{
    key_order();
    contents_read_back();
    reads_back()
}
