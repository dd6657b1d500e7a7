//! Laws of keys, values and images: each is the contract of a function that does nothing.

ghost use Rattle.mm_image.specs.Laws.{ChunkOrder, ContentsAreRead, CountOrder, CountsAreLengths, FirstPieceNames, ImagesRise, ImagesTellForests, KeysAreApart, OccurrenceOrder, ReadAreContents};

use mm_label::laws::{ancestry, byte_order, one_label};

/// A key stands for one thing at most: a piece of a node, a node that holds a word, or a word's count.
pub fn keys_are_apart()
    ensures { KeysAreApart }
{
    one_label()
}

/// The order of the keys of one sort is the order of what they stand for: of labels and numbers, of words and
/// labels, and of words.
pub fn key_order()
    ensures chunks { ChunkOrder }
    ensures occurrences { OccurrenceOrder }
    ensures counts { CountOrder }
{
    byte_order();
    ancestry()
}

/// A kind is read out of its content, and what is read of bytes has them for its content.
pub fn contents_read_back()
    ensures told { ContentsAreRead }
    ensures whole { ReadAreContents }
{}

/// The first piece of a node tells its name, and the value of a word's count the number of nodes that hold it.
pub fn values_tell()
    ensures names { FirstPieceNames }
    ensures counts { CountsAreLengths }
{}

/// The keys of the entries of a well-formed forest rise: its image is a sorted map.
pub fn images_rise()
    ensures { ImagesRise }
{
    byte_order();
    ancestry()
}

/// The entries of a well-formed forest tell the forest: no other one has them.
pub fn images_tell_forests()
    ensures { ImagesTellForests }
{
    one_label()
}
