//! Laws of the definitions that the contracts of tags cite. Each function does nothing: a proof that needs its law
//! calls it.
ghost use Rattle.tag_blocks.specs.Laws.{TagsAreTheirBytes, ItemsAreAll, UndoItemsAloneChange, UndosAreTheirTexts};

/// An APEv2 block of at most 1,048,576 bytes is a tag exactly if its bytes are the bytes of the tag: what is read
/// is written again, and what is written is read again.
pub fn tags_are_their_bytes()
    ensures { TagsAreTheirBytes }
{}

/// The items of a block are the ones that follow each other with nothing between them, and no others: where there
/// are fewer than the header counts, no item that may be there comes after them.
pub fn items_are_all()
    ensures { ItemsAreAll }
{}

/// Another undo item, or none, changes no other item. The tag then says what was put in. Taking the undo item out
/// has the same result before and after another one is put in.
pub fn undo_items_alone_change()
    ensures { UndoItemsAloneChange }
{}

/// The value of an undo item is written again as it was read, unless a number in it is `-000`.
pub fn undos_are_their_texts()
    ensures { UndosAreTheirTexts }
{}
