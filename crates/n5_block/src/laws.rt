// What holds of every block.
ghost use Rattle.n5_block.specs.Laws.{WrittenAreGood, GoodHaveOneList};

/// The block that is written of a cell is good for the cell, and gives its values back.
pub fn written_blocks_are_good()
    ensures { WrittenAreGood }
{}

/// A list of bytes gives a cell one list of values, or none.
pub fn good_blocks_have_one_list_of_values()
    ensures { GoodHaveOneList }
{}
