ghost use Rattle.erd_canon.specs.Words.{detailed_data, difference_line, fault_data, fault_line};
ghost use Rattle.erd_canon.specs.PiecesTaken.{EntriesGoOn, LinesGoOn, PiecesAreTheCheck, PiecesAreTheComparison, PiecesAreTheEntries, PiecesAreTheForm};
ghost use Rattle.erd_canon.specs.PiecesTaken.{PiecesAreTheLines, PiecesAreTheListing};

/// The law that the pieces of a list are together the list: whoever begins with its first entry, lets each piece begin where the
/// one before it ended, and goes on while entries are left, has each entry once, in the order of the list. The function does
/// nothing.
pub fn pieces_are_the_list()
    ensures fault_lines { PiecesAreTheLines fault_line }
    ensures difference_lines { PiecesAreTheLines difference_line }
    ensures fault_values { PiecesAreTheEntries fault_data }
    ensures difference_values { PiecesAreTheEntries detailed_data }
{}

/// The law that pieces of a list go on until it ends: one that may have an entry and a byte has an entry if one is left, and one
/// behind the last entry has none. The function does nothing.
pub fn pieces_go_on()
    ensures fault_lines { LinesGoOn fault_line }
    ensures difference_lines { LinesGoOn difference_line }
    ensures fault_values { EntriesGoOn fault_data }
    ensures difference_values { EntriesGoOn detailed_data }
{}

/// The law that the pieces of lines that the calls for a piece of a text answer, taken one behind the other, are together the
/// text that the engine writes, with the same outcome. The function does nothing.
pub fn pieces_are_the_text()
    ensures check { PiecesAreTheCheck }
    ensures form { PiecesAreTheForm }
    ensures comparison { PiecesAreTheComparison }
    ensures listing { PiecesAreTheListing }
{}
